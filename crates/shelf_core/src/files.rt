//! Files in memory, as a list of names and bytes.
ghost use Rattle.std.specs.Prelude.{◌≡◌, ◌↔◌, IsTrue, option_map};
ghost use Rattle.shelf_core.specs.Files.{bytes_of, files_of, AreDistinct, TestsNames, FindsTheFile, AddsTheFile};

use line_text::FileName;

/// The bytes beside the first equal name.
pub(crate) fn find<'a>(files: &'a [(FileName, Vec<u8>)], name: &FileName) -> Option<&'a [u8]>
    ensures { option_map (λ bytes. bytes.now) result ≡ bytes_of name.now (files_of files.now) }
{
    for (held, bytes) in files {
        if held.is(name) {
            return Some(bytes.as_slice());
        }
    }
    None
}

/// Whether no two of the files have the same name, which a new shelf in memory asks for.
pub fn are_distinct(files: &[(FileName, Vec<u8>)]) -> bool
    ensures { IsTrue result ↔ AreDistinct (files_of files.now) }
{
    for (i, (name, _)) in files.iter().enumerate() {
        if find(&files[i + 1..], name).is_some() {
            return false;
        }
    }
    true
}

/// The laws of the files that a shelf tells: the test of names is equality, and among files of
/// distinct names the bytes held under a name are those of the one file of that name, also after a
/// file of a new name was added.
pub fn law_files()
    ensures names { TestsNames }
    ensures finds { FindsTheFile }
    ensures adds { AddsTheFile }
{}
