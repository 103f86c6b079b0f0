use backups::{Backed, BackupRefusal, RestoreRefusal};
use cases::CasesRefusal;
use std::alloc::Global;

/// What a backup came to.
pub fn backup_words(
    alloc: Global,
    done: Result<Backed, BackupRefusal>,
) -> Result<String, CasesRefusal> {
    let words = match done {
        Ok(Backed::Nothing) => String::from_str(alloc, "did nothing")?,
        Ok(Backed::Full(name, len)) => format!(in alloc; "did full {} {len}", name.as_str())?,
        Ok(Backed::More(name, len)) => format!(in alloc; "did more {} {len}", name.as_str())?,
        Err(BackupRefusal::Missing) => String::from_str(alloc, "refused missing")?,
        Err(BackupRefusal::TooLong(len)) => format!(in alloc; "refused too long {len}")?,
        Err(BackupRefusal::Damaged(kind, place)) => {
            let kind = kind.number();
            format!(in alloc; "refused damaged {kind} {place}")?
        }
        Err(BackupRefusal::NamesSpent) => String::from_str(alloc, "refused names spent")?,
        Err(BackupRefusal::Disk) => String::from_str(alloc, "refused disk")?,
        Err(BackupRefusal::Memory) => return Err(CasesRefusal::Memory),
    };
    Ok(words)
}

/// What a restore came to.
pub fn restore_words(
    alloc: Global,
    done: Result<u64, RestoreRefusal>,
) -> Result<String, CasesRefusal> {
    let words = match done {
        Ok(len) => format!(in alloc; "did restored {len}")?,
        Err(RestoreRefusal::Missing) => String::from_str(alloc, "refused missing")?,
        Err(RestoreRefusal::BadIndex(line)) => format!(in alloc; "refused bad index {line}")?,
        Err(RestoreRefusal::BadPiece(name)) => {
            format!(in alloc; "refused bad piece {}", name.as_str())?
        }
        Err(RestoreRefusal::Exists) => String::from_str(alloc, "refused exists")?,
        Err(RestoreRefusal::Disk) => String::from_str(alloc, "refused disk")?,
        Err(RestoreRefusal::Memory) => return Err(CasesRefusal::Memory),
    };
    Ok(words)
}
