//! Where the files of a system stand.
ghost use Rattle.std.specs.Prelude.{◌≡◌, IfOk};
ghost use Rattle.std.specs.String.{string_bytes};
ghost use Rattle.dc_run_network.specs.Paths.{folder_of, path_of};

use std::alloc::{AllocError, Global};
use std::path::Path;

/// The folder of the file of this name; nothing where it has none.
pub(crate) fn folder_of(path: &str) -> &str
    ensures { result.now ≡ folder_of path.now }
{
    match Path::new(path).parent() {
        Some(folder) => folder.as_str(),
        None => "",
    }
}

/// The name of a file that a text in this folder names: as it is where it begins with a slash.
///
/// # Errors
/// `AllocError` where memory was refused.
pub(crate) fn path_of(alloc: Global, folder: &str, name: &str) -> Result<String, AllocError>
    ensures { IfOk result (λ path. string_bytes path ≡ path_of folder.now name.now) }
{
    let path = Path::new(folder).join(alloc, name)?;
    Ok(path.into_string())
}
