ghost use Rattle.std.specs.Prelude.{◌≡◌};
ghost use Rattle.plain_text.specs.Certificates.{certificate_text};
ghost use Rattle.plain_text.specs.Examples.{ring_certificate, ring_certificate_text, ring_net, ring_net_text, ring_property, ring_property_text};
ghost use Rattle.plain_text.specs.Nets.{net_text};
ghost use Rattle.plain_text.specs.Properties.{property_text};

/// A law that shows the canonical texts of a small net, of a property of it and of a certificate, byte by byte.
pub fn ring_texts()
    ensures net { net_text ring_net ≡ ring_net_text }
    ensures property { property_text ring_property ≡ ring_property_text }
    ensures certificate { certificate_text ring_certificate ≡ ring_certificate_text }
{}
