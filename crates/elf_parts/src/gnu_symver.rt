//! The versions of symbols (GNU symbol versioning): the versions that a file needs of other files, the versions
//! that it defines, and the version of each symbol.

pub mod links;
mod lists;
mod records;
mod table;

pub use lists::{
    AuxIterator, EntriesWithStrings, EntryIterator, VerDefAuxIterator, VerDefIterator,
    VerNeedAuxIterator, VerNeedIterator,
};
pub use records::{VerDef, VerDefAux, VerNeed, VerNeedAux, VersionIndex, VersionIndexTable};
pub use table::{
    IndexedVersions, NeedPlace, Needed, PlacedVersions, SymbolDefinition, SymbolNamesIterator,
    SymbolRequirement, SymbolVersionTable, SymbolVersions, first_needed, hold_needs,
};
