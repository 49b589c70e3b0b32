//! Bytes as they stand among the characters of XML and HTML, or in an attribute's value.
ghost use Rattle.std.specs.Prelude.{◌≡◌, ◌++◌, OnOk};
ghost use Rattle.xsap_reports.specs.MefText.{xml_byte, xml_text};

use base_values::{ByteList, OutOfMemory};

/// Appends bytes with a reference in place of each of the four signs that mean something to XML.
#[tactic(auto, using(crate::proofs::TextRules::text_rules))]
pub(crate) fn append_characters(text: &mut ByteList, bytes: &[u8]) -> Result<(), OutOfMemory>
    ensures { OnOk result (text.new ≡ text.old ++ xml_text bytes.now) }
{
    for byte in bytes {
        append_character(text, *byte)?;
    }
    Ok(())
}

/// Appends a byte, or its reference.
fn append_character(text: &mut ByteList, byte: u8) -> Result<(), OutOfMemory>
    ensures { OnOk result (text.new ≡ text.old ++ xml_byte byte) }
{
    if byte == b'&' {
        text.append(b"&amp;")
    } else if byte == b'<' {
        text.append(b"&lt;")
    } else if byte == b'>' {
        text.append(b"&gt;")
    } else if byte == b'"' {
        text.append(b"&quot;")
    } else {
        text.push(byte)
    }
}
