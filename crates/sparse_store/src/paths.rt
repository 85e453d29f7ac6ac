//! The paths of a store's files.
ghost use Rattle.std.specs.Prelude.{◌≡◌, IfOk};
ghost use Rattle.sparse_store.specs.Files.{path_in, meta_path, file_path};

use page_base::{Bytes, OutOfMemory};

fn path_in(dir: &Bytes, name: &[u8]) -> Result<Bytes, OutOfMemory>
    ensures { IfOk result (λ path. path.items ≡ path_in dir.now.items name.now) }
{
    let mut path = Bytes::from_slice(dir.allocator(), dir.as_slice())?;
    path.reserve(name.len() + 1)?;
    path.put(b'/');
    path.put_all(name);
    Ok(path)
}

/// Where the metadata of the store in a folder lies.
pub(crate) fn meta_path(dir: &Bytes) -> Result<Bytes, OutOfMemory>
    ensures { IfOk result (λ path. path.items ≡ meta_path dir.now.items) }
{
    path_in(dir, b"_metadata".as_slice())
}

/// Where the file of this number lies.
pub(crate) fn file_path(dir: &Bytes, number: u64) -> Result<Bytes, OutOfMemory>
    ensures { IfOk result (λ path. path.items ≡ file_path dir.now.items number) }
{
    let mut text = itoa::Buffer::new();
    path_in(dir, text.format(number).as_bytes())
}
