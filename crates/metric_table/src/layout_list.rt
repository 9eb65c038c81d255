//! The layouts by number.
ghost use Rattle.std.specs.Prelude.{◌≡◌, IsTrue, Some, IfSome, slice_get};

use crate::entry::Entry;
use crate::known::Known;
use ring_format::{Archive, Layout};
use std::alloc::{AllocError, Global};
use std::marker::Model;

// How many layouts a new one is held against. Rules give few layouts, so that a metric's is mostly there;
// where files have very many, some are kept twice.
const MOST_COMPARED: usize = 64;

/// Layouts, each by its number from 0 on.
#[derive(Drop)]
pub(crate) struct LayoutList {
    items: Vec<Layout>,
}

impl Model for LayoutList {
    ghost use Rattle.std.specs.Prelude.{List};
    ghost use Rattle.ring_format.specs.Layout.{LayoutValue};

    ghost Value = { List LayoutValue };

    ghost view = { λ l. l.items.items };
}

impl LayoutList {
    ghost use Rattle.std.specs.Prelude.{◌≡◌, ◌<◌, [], None, Some, IfOk, IfSome, OnOk, OnErr, length, slice_get};
    ghost use Rattle.metric_table.specs.Numbered.{KeepsNumbers, known_by};
    ghost use Rattle.metric_table.specs.Table.{IsLawful};

    /// No layouts.
    pub(crate) fn new(alloc: Global) -> LayoutList
        ensures { result ≡ [] }
    {
        LayoutList {
            items: Vec::new(alloc),
        }
    }

    /// How many layouts there are.
    pub(crate) fn len(&self) -> usize
        ensures { result ≡ length self.now }
    {
        self.items.len()
    }

    /// The layout with a number.
    pub(crate) fn get(&self, number: u32) -> &Layout
        requires { number < length self.now }
        ensures { slice_get self.now number ≡ Some result.now }
    {
        &self.items[number as usize]
    }

    /// What an entry says.
    pub(crate) fn known_by(&self, entry: Entry) -> Known
        requires { entry.layout < length self.now }
        ensures value { result ≡ known_by self.now entry }
        ensures lawful { IsLawful result }
    {
        let layout = *self.get(entry.layout);
        // A layout tells that it is lawful.
        let _ = layout.archive_count();
        Known {
            layout,
            is_kept: entry.is_kept,
            is_old: entry.is_old,
            drains: entry.drains,
        }
    }

    /// The number of a layout, under which it is added where it is not found among the last. Want of memory
    /// changes nothing.
    pub(crate) fn number_of(&mut self, layout: Layout) -> Result<u32, AllocError>
        ensures numbered { IfOk result (λ number. slice_get self.new number ≡ Some layout) }
        ensures kept { OnOk result (KeepsNumbers self.old self.new) }
        ensures err { OnErr result (self.new ≡ self.old) }
    {
        if let Some(number) = self.place_among_last(&layout) {
            return u32::try_from(number).map_err(|_| AllocError);
        }
        let Ok(number) = u32::try_from(self.items.len()) else {
            return Err(AllocError);
        };
        self.items.push(layout)?;
        Ok(number)
    }

    // Where a layout stands among the last.
    fn place_among_last(&self, layout: &Layout) -> Option<usize>
        ensures { IfSome result (λ place. slice_get self.now place ≡ Some layout.now) }
    {
        let first = self.items.len().saturating_sub(MOST_COMPARED);
        let place = place_of(&self.items[first..], layout)?;
        Some(first + place)
    }
}

// Where a layout stands first.
fn place_of(layouts: &[Layout], layout: &Layout) -> Option<usize>
    ensures { IfSome result (λ place. slice_get layouts.now place ≡ Some layout.now) }
{
    layouts.iter().position(|other| is_same(other, layout))
}

// Whether two layouts have the same parts. Contracts know of the derived comparison that it also compares
// what stands behind the last archive.
#[tactic(auto, using(crate::proofs::TableLemmas::same_parts))]
fn is_same(one: &Layout, other: &Layout) -> bool
    ensures { IsTrue result → one.now ≡ other.now }
{
    one.factor() == other.factor()
        && one.method() == other.method()
        && has_same_archives(one.archives(), other.archives())
}

// Whether two lists of archives are one.
fn has_same_archives(one: &[Archive], other: &[Archive]) -> bool
    ensures { IsTrue result → one.now ≡ other.now }
{
    one == other
}
