//! The working folder, and what the system lets the process open in it.
ghost use Rattle.std.specs.Prelude.{◌≡◌, IfOk, vec_len};

use crate::unready::Unready;
use carbon_words::{PortHosts, ServeOptions};
use folder_disk::FolderDisk;
use libc::types::rlimit;
use libc::{RLIMIT_NOFILE, getrlimit};
use std::alloc::AllocError;
use std::fs::{self, File, OpenFile, OpenOptions, TryLockError};
use std::os::unix::fs::MetadataExt;
use tcp_net::net_descriptors;

/// The working folder.
const WORKING: &str = ".";

/// The folder of the rule files, in it.
const CONF: &str = "conf";

/// The folder of the classes' folders, in it.
const DATA: &str = "data";

/// How many classes there are, each with a disk of its own.
const CLASSES: usize = metric_path::CLASSES as usize;

/// What a server has open beside its net: the standard streams, the two folders that are locked, of each class a ring file and another one that
/// is opened in its place, a rule file, and a folder that is listed.
const DESCRIPTORS: u64 = 3 + 2 + 2 * CLASSES as u64 + 2;

/// The folders that are kept from other processes as long as this is held. A process that ends, however, gives them back.
#[derive(Drop)]
pub(crate) struct HeldFolders {
    _working: Option<File>,
    _data: Option<File>,
}

/// Locks the working folder for this process, and the folder of the ring files, which may lie elsewhere behind a link. A server makes that one
/// where it is not there. Where a file system has no locks standard error says so.
pub(crate) fn hold_folders(rt: &HostRuntime, is_server: bool) -> Result<HeldFolders, Unready> {
    let working = locked(rt, WORKING)?;
    if is_server {
        // one that cannot be made is told with the first class
        let _ = fs::create_dir(rt, DATA);
    }
    let data = if is_own_folder(rt, DATA) {
        locked(rt, DATA)?
    } else {
        None
    };
    Ok(HeldFolders {
        _working: working,
        _data: data,
    })
}

/// Whether a folder is there, and not the working folder by another name.
fn is_own_folder(rt: &HostRuntime, folder: &str) -> bool {
    match (fs::metadata(rt, folder), fs::metadata(rt, WORKING)) {
        (Ok(found), Ok(working)) => {
            found.is_dir() && (found.dev() != working.dev() || found.ino() != working.ino())
        }
        _ => false,
    }
}

fn locked(rt: &HostRuntime, folder: &str) -> Result<Option<File>, Unready> {
    let error = match OpenOptions::new().read(true).open(rt, folder) {
        Ok(file) => match file.try_lock() {
            Ok(()) => return Ok(Some(file)),
            Err(TryLockError::WouldBlock) => return Err(Unready::FolderInUse),
            Err(TryLockError::Error(error)) => error,
        },
        Err(error) => error,
    };
    let _ = eprintln!(rt;
        "carbon: {folder}: not locked, so nothing keeps a second carbon from it: {error}"
    );
    Ok(None)
}

/// Refuses where the system lets the process open fewer files than a server with these links has open at most, which is at its stop.
pub(crate) fn want_descriptors(options: &ServeOptions) -> Result<(), Unready> {
    let links = u64::from(options.receivers) + u64::from(options.renderers);
    let needed = DESCRIPTORS + net_descriptors(count_addresses(&options.hosts)) + links;
    let mut limit = rlimit {
        rlim_cur: 0,
        rlim_max: 0,
    };
    if getrlimit(RLIMIT_NOFILE, &mut limit) == 0 && limit.rlim_cur < needed {
        let given = limit.rlim_cur;
        return Err(Unready::FewDescriptors { needed, given });
    }
    Ok(())
}

/// How many addresses the ports have together.
fn count_addresses(hosts: &PortHosts) -> u32 {
    let lines = hosts.lines.addresses().len();
    let http = hosts.http.addresses().len();
    u32::try_from(lines.saturating_add(http)).unwrap_or(u32::MAX)
}

/// A disk for each class, over the folders `data/00` to `data/15`. Those of a server have to be folders that can be written.
pub(crate) fn folders(
    rt: &HostRuntime,
    is_server: bool,
) -> Result<Vec<FolderDisk<HostRuntime>>, AllocError>
    ensures { IfOk result (λ disks. vec_len disks ≡ 16) }
{
    let alloc = rt.alloc();
    let mut disks = Vec::with_capacity(alloc, CLASSES)?;
    for class in 0..CLASSES {
        let folder = format!(in alloc; "{DATA}/{class:02}")?;
        disks.push(disk_over(rt, folder, is_server)?)?;
    }
    Ok(disks)
}

/// The disk of the rule files.
pub(crate) fn conf_folder(rt: &HostRuntime) -> Result<FolderDisk<HostRuntime>, AllocError> {
    let folder = String::from_str(rt.alloc(), CONF)?;
    Ok(FolderDisk::of_settings(rt.clone()?, folder))
}

fn disk_over(
    rt: &HostRuntime,
    folder: String,
    is_server: bool,
) -> Result<FolderDisk<HostRuntime>, AllocError> {
    let rt = rt.clone()?;
    if is_server {
        return Ok(FolderDisk::to_be_written(rt, folder));
    }
    Ok(FolderDisk::new(rt, folder))
}
