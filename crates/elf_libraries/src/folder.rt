//! What is in a folder.

/// What a name of a folder stands for.
#[derive(Debug, Clone, Copy)]
pub enum EntryKind {
    /// A regular file.
    File,
    Folder,
    /// The name is not UTF-8, so nothing can be opened by it.
    Unnamed,
}

/// A file or a folder by its path. In the folder that has it, the path is its name.
#[derive(Debug, Drop)]
pub struct Entry {
    pub path: String,
    pub kind: EntryKind,
}
