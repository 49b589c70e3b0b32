//! What a search came to, as it is written and said: a certificate, where there is one, and a report.
//!
//! The main function is [`conclude`], which all verbs that search for one top event end with.
ghost use Rattle.std.specs.Prelude.{◌≡◌, OnOk, OnErr, IsErrOf};
ghost use Rattle.base_files.specs.Desk.{OnlyWrites, IsLater, Rose, said_more};
ghost use Rattle.base_files.specs.declared.desk.WriteStop.TheVariants as write_stop;
ghost use Rattle.verb_loading.specs.CaseAnswers.{told_maybe, WritesPrefixMaybe};
ghost use Rattle.cert_file.specs.Conclusions.{ConcludesInPart};

use base_files::{Desk, WriteStop, say_whole, write_whole};
use base_values::{ByteList, Ending};

/// What a search came to: the text of a certificate of a complete answer, the report, and how the search ended.
#[derive(Drop)]
pub struct Conclusion {
    pub cert: Option<ByteList>,
    pub report: ByteList,
    pub ending: Ending,
}

/// Writes the certificate, where there is one, and says the report.
pub fn conclude<D: Desk>(desk: &mut D, name: &str, found: &Conclusion) -> Result<(), WriteStop>
    ensures ok { OnOk result (((D.told desk.new).files ≡ told_maybe (D.told desk.old).files name.now found.now.cert)
        × ((D.told desk.new).said ≡ said_more (D.told desk.old).said found.now.report)) }
    ensures part { ConcludesInPart name.now found.now
        (D.told desk.old).files (D.told desk.new).files (D.told desk.old).said (D.told desk.new).said }
    ensures failed { IsErrOf result write_stop.Failed → Rose (D.told desk.old).faults (D.told desk.new).faults }
    ensures stays { IsLater (D.told desk.old) (D.told desk.new) }
{
    write_maybe(desk, name, &found.cert)?;
    say_whole(desk, found.report.as_slice())
}

/// Writes the text, where there is one.
fn write_maybe<D: Desk>(desk: &mut D, name: &str, text: &Option<ByteList>) -> Result<(), WriteStop>
    ensures ok { OnOk result ((D.told desk.new).files ≡ told_maybe (D.told desk.old).files name.now text.now) }
    ensures err { OnErr result (WritesPrefixMaybe (D.told desk.old).files (D.told desk.new).files name.now text.now) }
    ensures failed { IsErrOf result write_stop.Failed → Rose (D.told desk.old).faults (D.told desk.new).faults }
    ensures stays { OnlyWrites (D.told desk.old) (D.told desk.new) }
{
    match text {
        Some(bytes) => write_whole(desk, name, bytes.as_slice()),
        None => Ok(()),
    }
}
