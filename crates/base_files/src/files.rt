//! Files by their names, in a list in which the first of two with one name counts.
ghost use Rattle.std.specs.Prelude.{◌≡◌, [], ◌++◌, IfOk, OnOk, OnErr};
ghost use Rattle.std.specs.Option.{option_copied};
ghost use Rattle.base_files.specs.Files.{file_of, content_of, place_of, with_file};

use base_values::{ByteList, Items, OutOfMemory};
use std::alloc::Global;

/// A file under its name.
#[derive(Drop)]
pub struct NamedFile {
    /// The bytes of its name.
    pub name: ByteList,
    /// What it holds.
    pub bytes: ByteList,
}

/// Files, of which the first with a name counts.
pub type FileList = Items<NamedFile>;

impl NamedFile {
    /// A file of its own with this name and these bytes.
    pub fn new(alloc: Global, name: &str, bytes: &[u8]) -> Result<NamedFile, OutOfMemory>
        ensures name { IfOk result (λ file. file.name ≡ name.now) }
        ensures bytes { IfOk result (λ file. file.bytes ≡ bytes.now) }
    {
        let name = ByteList::from_slice(alloc, name.as_bytes())?;
        let bytes = ByteList::from_slice(alloc, bytes)?;
        Ok(NamedFile { name, bytes })
    }

    /// A copy of its own, which has the same name and holds the same bytes.
    pub fn copy(&self) -> Result<NamedFile, OutOfMemory>
        ensures { IfOk result (λ made. made ≡ self.now) }
    {
        let name = self.name.copy()?;
        let bytes = self.bytes.copy()?;
        Ok(NamedFile { name, bytes })
    }
}

/// The bytes of the file with this name.
pub(crate) fn find_file<'a>(files: &'a [NamedFile], name: &[u8]) -> Option<&'a [u8]>
    ensures { option_copied result ≡ file_of files.now name.now }
{
    for file in files {
        if file.name.as_slice() == name {
            return Some(file.bytes.as_slice());
        }
    }
    None
}

/// Where the file with this name stands.
fn find_place(files: &[NamedFile], name: &[u8]) -> Option<usize>
    ensures { result ≡ place_of files.now name.now }
{
    for (i, file) in files.iter().enumerate() {
        if file.name.as_slice() == name {
            return Some(i);
        }
    }
    None
}

/// Makes the file empty, or a new empty one.
pub(crate) fn start_file(
    alloc: Global,
    files: &mut Vec<NamedFile>,
    name: &str,
) -> Result<(), OutOfMemory>
    ensures ok { OnOk result (files.new.items ≡ with_file files.old.items name.now []) }
    ensures err { OnErr result (files.new.items ≡ files.old.items) }
{
    match find_place(files, name.as_bytes()) {
        Some(i) => files[i].bytes.clear(),
        None => files.push(NamedFile::new(alloc, name, &[])?)?,
    }
    Ok(())
}

/// Appends bytes to the file, or to a new one.
pub(crate) fn append_to_file(
    alloc: Global,
    files: &mut Vec<NamedFile>,
    name: &str,
    more: &[u8],
) -> Result<(), OutOfMemory>
    ensures ok { OnOk result (files.new.items ≡
        with_file files.old.items name.now (content_of files.old.items name.now ++ more.now)) }
    ensures err { OnErr result (files.new.items ≡ files.old.items) }
{
    match find_place(files, name.as_bytes()) {
        Some(i) => files[i].bytes.append(more)?,
        None => files.push(NamedFile::new(alloc, name, more)?)?,
    }
    Ok(())
}
