//! The type of a lawful layout.
ghost use Rattle.std.specs.Prelude.{◌≡◌, ◌<◌, ◌≤◌, ◌+◌, ◌*◌, ◌↔◌, IsTrue, None, Some, IfSome, length, option_map, slice_get};
ghost use Rattle.ring_format.specs.Layout.{layout_fault, layout_result, point_count, retention_of};
ghost use Rattle.ring_format.specs.Patch.{IsPlace};
ghost use Rattle.ring_format.specs.LayoutFile.{file_size_in, file_size_of, head_size, offset_in, offset_of};
ghost use Rattle.ring_format.specs.Cell.{IsVersion, cell_size, cell_size_in};

use crate::archive::{Archive, Method, point_count};
use crate::archive_list::ArchiveList;
use crate::cell::{VERSION, cell_bytes_in};
use crate::fault::LayoutFault;
use crate::fault_search::fault_of;
use crate::head::{FRONT_BYTES, ROW_BYTES};
use std::marker::Model;

/// A lawful layout: one to 25 archives from the finest to the coarsest, the method by which finer
/// values become coarser ones, and the least part of them, in millionths, that must be known.
#[derive(Clone, Copy, Debug, PartialEq, Eq)]
pub struct Layout {
    archives: ArchiveList,
    method: Method,
    factor: u32,
}

impl Model for Layout {
    ghost use Rattle.std.specs.Prelude.{◌≡◌, None};
    ghost use Rattle.ring_format.specs.Layout.{LayoutValue, layout_fault};

    ghost Value = { LayoutValue };

    ghost view = { λ a. record { archives = a.archives; method = a.method; factor = a.factor } };

    ghost invariant = { λ a. layout_fault a.archives a.factor ≡ None };

    ghost inverse = { λ v. record { archives = v.archives; method = v.method; factor = v.factor } };
}

impl Layout {
    /// The layout with these archives from the finest to the coarsest, or the first fault.
    #[tactic(auto, using(crate::proofs::LawfulLayouts::lawful_count))]
    pub fn new(archives: &[Archive], method: Method, factor: u32) -> Result<Layout, LayoutFault>
        ensures { result ≡ layout_result archives.now method factor }
    {
        if let Some(fault) = fault_of(archives, factor) {
            return Err(fault);
        }
        let archives = ArchiveList::of(archives);
        Ok(Layout {
            archives,
            method,
            factor,
        })
    }

    /// The archives from the finest to the coarsest.
    #[tactic(auto, using(crate::proofs::LawfulLayouts::lawful_count))]
    pub fn archives(&self) -> &[Archive]
        ensures value { result.now ≡ self.now.archives }
        ensures lawful { layout_fault result.now self.now.factor ≡ None }
        ensures some { 1 ≤ length result.now }
        ensures few { length result.now ≤ 25 }
        ensures points { point_count result.now ≤ 4000000 }
    {
        let _ = &self.factor;
        self.archives.as_slice()
    }

    /// How many archives the layout has.
    pub fn archive_count(&self) -> u32
        ensures value { result ≡ length self.now.archives }
        ensures some { 1 ≤ result }
        ensures few { result ≤ 25 }
        ensures lawful { layout_fault self.now.archives self.now.factor ≡ None }
    {
        self.archives().len() as u32
    }

    /// How the known values of a finer archive become one of a coarser.
    pub fn method(&self) -> Method
        ensures { result ≡ self.now.method }
    {
        self.method
    }

    /// The least part of the places, in millionths, that must be known for a coarser value.
    #[tactic(auto, using(crate::proofs::LawfulLayouts::lawful_count))]
    pub fn factor(&self) -> u32
        ensures value { result ≡ self.now.factor }
        ensures most { result ≤ 1000000 }
    {
        self.factor
    }

    /// The bytes of a new file of this layout: its head, and 20 for each point.
    pub fn file_size(&self) -> u64
        ensures value { result ≡ file_size_of self.now.archives }
        ensures most { result ≤ 80000316 }
    {
        self.size_in(VERSION)
    }

    /// The bytes of a file of this layout in a version: its head, and a cell for each point, of
    /// 12 bytes in version 1 and of 20 in version 2.
    pub fn size_in(&self, version: u32) -> u64
        requires { IsVersion version }
        ensures value { result ≡ file_size_in version self.now.archives }
        ensures most { result ≤ 80000316 }
    {
        file_size_in(self.archives(), version)
    }

    /// The archive at a place, from 0 on.
    #[tactic(auto, using(crate::proofs::LawfulLayouts::archive_bounds))]
    pub fn archive(&self, i: u32) -> Archive
        requires { i < length self.now.archives }
        ensures value { slice_get self.now.archives i ≡ Some result }
        ensures step { (1 ≤ result.step) × (result.step ≤ 31536000) }
        ensures points { (1 ≤ result.points) × (result.points ≤ 4000000) }
        ensures retention { retention_of result ≤ 4000000000 }
    {
        self.archives()[i as usize]
    }

    /// Whether the layout has this archive, and the archive this slot.
    pub fn has_slot(&self, archive: u32, slot: u32) -> bool
        ensures { IsTrue result ↔ IsPlace self.now (archive, slot) }
    {
        match self.archives().get(archive as usize) {
            Some(archive) => slot < archive.points,
            None => false,
        }
    }

    /// How many seconds the archive at a place reaches back: its step times its points.
    pub fn retention(&self, i: u32) -> u32
        requires { i < length self.now.archives }
        ensures value { option_map retention_of (slice_get self.now.archives i) ≡ Some result }
        ensures most { result ≤ 4000000000 }
    {
        self.archive(i).retention() as u32
    }

    /// Where the archive at a place begins in a new file of this layout.
    pub fn offset(&self, i: u32) -> u32
        requires { i < length self.now.archives }
        ensures value { result ≡ offset_of self.now.archives i }
        ensures within { IfSome (slice_get self.now.archives i)
            (λ archive. result + cell_size * archive.points ≤ file_size_of self.now.archives) }
    {
        self.offset_in(i, VERSION)
    }

    /// Where the archive at a place begins in a file of this layout in a version.
    pub fn offset_in(&self, i: u32, version: u32) -> u32
        requires place { i < length self.now.archives }
        requires version { IsVersion version }
        ensures value { result ≡ offset_in version self.now.archives i }
        ensures within { IfSome (slice_get self.now.archives i)
            (λ archive. result + cell_size_in version * archive.points
            ≤ file_size_in version self.now.archives) }
    {
        offset_among(self.archives(), i as usize, version)
    }
}

// Where the archive at a place begins in a file of a version.
#[tactic(auto, using(crate::proofs::LawfulLayouts::points_within))]
fn offset_among(archives: &[Archive], i: usize, version: u32) -> u32
    requires place { i < length archives.now }
    requires version { IsVersion version }
    requires few { length archives.now ≤ 25 }
    requires points { point_count archives.now ≤ 4000000 }
    ensures value { result ≡ offset_in version archives.now i }
    ensures within { IfSome (slice_get archives.now i)
        (λ archive. result + cell_size_in version * archive.points
        ≤ file_size_in version archives.now) }
{
    let points = point_count(&archives[..i]);
    (head_size(archives.len()) + cell_bytes_in(version) as u64 * points) as u32
}

/// The bytes of a file of a version with these archives.
pub(crate) fn file_size_in(archives: &[Archive], version: u32) -> u64
    requires few { length archives.now ≤ 25 }
    requires version { IsVersion version }
    ensures { result ≡ file_size_in version archives.now }
{
    head_size(archives.len()) + cell_bytes_in(version) as u64 * point_count(archives)
}

/// The bytes of a head.
pub(crate) fn head_size(archive_count: usize) -> u64
    requires { archive_count ≤ 25 }
    ensures { result ≡ head_size archive_count }
{
    (FRONT_BYTES + ROW_BYTES * archive_count) as u64
}
