//! A depot of files in the current folder.

ghost use Rattle.std.specs.Prelude.{◌≡◌, [], true, false, map, IfOk, string_bytes};
ghost use Rattle.cx_base.specs.declared.role.RoleId.{RoleId};
ghost use Rattle.cx_edge.specs.Depot.{first_faults};
ghost use Rattle.cx_edge.specs.FileDepot.{file_extension, file_name, files_out, files_faults};
ghost use Rattle.cx_edge.specs.FileDisk.{faults_of};

use crate::desk::Desk;
use crate::{Depot, FileDisk, Shelf, Trouble};
use cx_base::{Kind, MAX_RECORD_LENGTH, NoMemory, RoleId};
use cx_disk::{Disk, Failed};
use std::alloc::Global;
use std::fs::File;
use std::io;
use std::io::ErrorKind;
use std::marker::Model;
use std::rt::Files;

/// The place of a store, and the name of its file.
#[derive(Drop)]
struct StoreName {
    place: Shelf,
    name: String,
    // What the last call on the file that failed said.
    trouble: Option<io::Error>,
}

/// Keeps each store in a file of its own, which is named after its role. A replica has two, each other role one.
#[derive(Drop)]
pub struct FileDepot<R> {
    files: R,
    names: Vec<StoreName>,
    desk: Desk,
}

impl<R> Model for FileDepot<R> {
    ghost use Rattle.cx_edge.specs.FileDepot.{FilesState};

    ghost Value = { FilesState };

    ghost view = { λ d. record { counts = d.desk.counts; out = d.desk.out } };
}

/// How the name of a file on this side ends.
fn file_extension(side: u8) -> &'static str
    ensures { result.now ≡ file_extension side }
{
    match side {
        0 => "journal",
        _ => "other",
    }
}

/// The name of a store's file, as `compax-replica-0.journal`, or `compax-replica-0.other` on side 1.
fn file_name(alloc: Global, place: Shelf) -> Result<String, NoMemory>
    ensures { IfOk result (λ name. string_bytes name ≡ file_name place) }
{
    let kind = place.role.kind.text();
    let index = place.role.index;
    let ending = file_extension(place.side);
    match format!(in alloc; "compax-{kind}-{index}.{ending}") {
        Ok(name) => Ok(name),
        Err(_) => Err(NoMemory),
    }
}

fn add_name(alloc: Global, names: &mut Vec<StoreName>, place: Shelf) -> Result<(), NoMemory> {
    let name = file_name(alloc, place)?;
    names.push(StoreName {
        place,
        name,
        trouble: None,
    })?;
    Ok(())
}

/// The places that these roles have, with the names of their files.
fn names_of(alloc: Global, roles: &[RoleId]) -> Result<Vec<StoreName>, NoMemory> {
    let mut names = Vec::with_capacity(alloc, roles.len())?;
    for role in roles {
        add_name(alloc, &mut names, Shelf::new(*role, 0))?;
        if role.kind == Kind::Replica {
            add_name(alloc, &mut names, Shelf::new(*role, 1))?;
        }
    }
    Ok(names)
}

/// The most bytes that an append to an empty journal leaves while its gate is still closed: the gate, the record's length, the
/// longest record, and the next gate.
const FIRST_RECORD: u64 = 1 + 4 + MAX_RECORD_LENGTH as u64 + 1;

/// Whether a file of this length may be a journal by its first bytes, with 0 for those past its end. It is empty, or begins with
/// an open gate, or with a closed one that has one record at most after it.
///
/// A replica's may also be a list that was put anew, which begins with 4, its generation and a gate. One that was stopped before
/// its 4 was written begins with 0 in place of it, however long it is, and with 0 also in place of what wasn't written yet.
///
/// A torn write could leave any byte on a disk as it is assumed elsewhere; a file keeps the old byte or the new one, so a stop
/// leaves no other beginning.
fn could_begin(front: [u8; 3], len: u64, kind: Kind) -> bool {
    match front {
        [1, ..] => true,
        [0, ..] if len <= FIRST_RECORD => true,
        [4, ..] | [0, 0..=2, 0..=1] => kind == Kind::Replica,
        _ => false,
    }
}

/// Whether the file may be a journal of a role of this kind.
fn could_be_journal(disk: &mut FileDisk, kind: Kind) -> bool
    ensures { result ≡ true → faults_of disk.new ≡ faults_of disk.old }
{
    let len = disk.len();
    let mut front = [0; 3];
    match disk.read(0, &mut front[..len.min(3) as usize]) {
        Ok(()) => could_begin(front, len, kind),
        Err(_) => false,
    }
}

// Why a file isn't taken for a journal.
fn refusal(disk: &FileDisk) -> io::Error {
    match disk.trouble() {
        Some(error) => error,
        None => io::Error::new(
            ErrorKind::InvalidData,
            "by its first bytes it is no journal",
        ),
    }
}

fn opened<R: Files<File = File>>(
    files: &R,
    names: &[StoreName],
    place: Shelf,
) -> io::Result<FileDisk>
    ensures { IfOk result (λ disk. faults_of disk ≡ 0) }
{
    for store in names {
        if place.is(store.place) {
            let mut disk = FileDisk::open(files, store.name.as_str())?;
            if !could_be_journal(&mut disk, place.role.kind) {
                return Err(refusal(&disk));
            }
            return Ok(disk);
        }
    }
    Err(io::Error::from(ErrorKind::NotFound))
}

// Keeps what a call on a file said that failed.
fn note(names: &mut Vec<StoreName>, place: Shelf, error: io::Error) {
    for store in names.iter_mut() {
        if place.is(store.place) {
            store.trouble = Some(error);
        }
    }
}

// What the last call that failed on a file of the role said.
fn trouble_of(names: &[StoreName], role: RoleId) -> Option<Trouble<'_>> {
    for store in names {
        if role.is(store.place.role) {
            if let Some(error) = store.trouble {
                let name = store.name.as_str();
                return Some(Trouble::File { name, error });
            }
        }
    }
    None
}

impl<R> FileDepot<R> {
    /// The depot of these roles' files, none of them out. Opening the store of another role fails, and so does any but the first
    /// of a role, and the second of a replica. All memory is taken here, none by a call.
    #[tactic(auto, using(crate::proofs::DeskLaws::count_first))]
    pub fn new(alloc: Global, files: R, roles: &[RoleId]) -> Result<Self, NoMemory>
    where
        R: Drop,
        ensures faults { IfOk result (λ depot. (role : RoleId)
            → files_faults depot role ≡ first_faults role roles.now) }
        ensures out { IfOk result (λ depot. depot.out ≡ []) }
    {
        let names = names_of(alloc, roles)?;
        let desk = Desk::new(alloc, roles, names.len())?;
        Ok(FileDepot { files, names, desk })
    }

    /// What the last opening or call that failed said of a file of the role, once its stores are back.
    pub fn trouble(&self, role: RoleId) -> Option<Trouble<'_>> {
        trouble_of(&self.names, role)
    }
}

impl<R: Files<File = File>> Depot for FileDepot<R> {
    type Store = FileDisk;

    ghost tells = { λ d. false };

    ghost stored = { λ d place. [] };

    ghost out = { files_out };

    ghost faults = { files_faults };

    #[tactic(auto, using(crate::proofs::DeskLaws::count_rises, crate::proofs::DeskLaws::count_later, crate::proofs::DeskLaws::count_other))]
    fn open(&mut self, role: RoleId, side: u8) -> Result<FileDisk, Failed> {
        let place = Shelf::new(role, side);
        if self.desk.can_hand_out(place) {
            match opened(&self.files, &self.names, place) {
                Ok(store) => {
                    self.desk.hand_out(place);
                    return Ok(store);
                }
                Err(error) => note(&mut self.names, place, error),
            }
        }
        self.desk.fail(role);
        Err(Failed)
    }

    #[tactic(auto, using(crate::proofs::DeskLaws::count_rises, crate::proofs::DeskLaws::count_later, crate::proofs::DeskLaws::count_other, crate::proofs::DeskLaws::count_none))]
    fn close(&mut self, role: RoleId, side: u8, store: FileDisk) {
        let place = Shelf::new(role, side);
        if let Some(error) = store.trouble() {
            note(&mut self.names, place, error);
        }
        self.desk.take_back(place, store.faults());
    }
}
