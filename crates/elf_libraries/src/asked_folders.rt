//! The folders that were looked for, so that one that is not there is asked for once.

use crate::tree::folder_of;
use std::alloc::Global;
use std::cell::RefCell;
use std::collections::BTreeMap;
use std::str::from_utf8;
use std::{fs, io};

/// The folders of paths at which no file was found, and whether each is there. If an allocation fails, a folder is not
/// remembered, and is asked for again.
#[derive(Drop)]
pub(crate) struct AskedFolders {
    alloc: Global,
    are_there: RefCell<BTreeMap<Vec<u8>, bool>>,
}

impl AskedFolders {
    pub(crate) fn new(alloc: Global) -> Self {
        AskedFolders {
            alloc,
            are_there: RefCell::new(BTreeMap::new(alloc)),
        }
    }

    // Whether the folder of a path is known not to be there, so that no file is at the path.
    pub(crate) fn lack_folder_of(&self, path: &str) -> bool {
        match self.are_there.try_borrow() {
            Ok(folders) => matches!(folders.get(folder_of(path.as_bytes())), Some(false)),
            Err(_) => false,
        }
    }

    // Asks for the folder of a path at which no file was found, if it was not asked for before.
    pub(crate) fn ask_for_folder_of(&self, rt: &HostRuntime, path: &str) {
        let folder = folder_of(path.as_bytes());
        let Ok(mut folders) = self.are_there.try_borrow_mut() else {
            return;
        };
        if folders.get(folder).is_some() {
            return;
        }
        if let Ok(key) = folder.to_vec(self.alloc) {
            let _ = folders.insert(key, is_there(rt, folder));
        }
    }
}

// Whether a folder is there, or may be: its name may not be UTF-8, or its metadata may not be readable.
fn is_there(rt: &HostRuntime, folder: &[u8]) -> bool {
    let Ok(folder) = from_utf8(folder) else {
        return true;
    };
    match fs::metadata(rt, folder) {
        Ok(found) => found.is_dir(),
        Err(error) => error.kind() != io::ErrorKind::NotFound,
    }
}
