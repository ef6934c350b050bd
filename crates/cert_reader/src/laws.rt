ghost use Rattle.cert_reader.specs.Grammar.{HaveOneAnswer};
ghost use Rattle.cert_reader.specs.Rewriting.{WrittenIsRead};

use cert_lines::written_line_is_read;

/// A law for callers of [`read_cert`](crate::read_cert) and [`write_cert`](crate::write_cert): what is written
/// of a certificate that was read is read as the same certificate, the numbers of lines aside.
pub fn written_certificate_is_read()
    ensures { WrittenIsRead }
{
    written_line_is_read();
}

/// A law for callers of [`read_cert`](crate::read_cert): each list of bytes spells exactly one certificate, or
/// has exactly one first fault, and not both.
pub fn certificates_have_one_answer()
    ensures { HaveOneAnswer }
{}
