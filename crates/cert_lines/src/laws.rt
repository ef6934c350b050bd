ghost use Rattle.cert_lines.specs.Written.{WrittenLineIsRead};

/// A law for whoever reads what [`write_cert`](crate::write_cert) writes: what a line says is said again by
/// the line that it is written as.
pub fn written_line_is_read()
    ensures { WrittenLineIsRead }
{}
