//! The search for what is reachable: a flag for each object, and a queue of those to be looked at.

ghost use Rattle.std.specs.Prelude.{◌≡◌, ◌<◌, false, [], replicate, length, IfOk, OnOk};

use crate::objects::Objects;
use crate::pointer::Pointer;
use std::alloc::{AllocError, Global};
use std::marker::Model;

pub(crate) struct Search {
    first_name: u64,
    flags: Vec<bool>,
    queue: Vec<usize>,
}

impl Model for Search {
    ghost use Rattle.object_graph.specs.Reached as reached;

    ghost Value = { reached.Search };

    ghost view = { λ s. record { first_name = s.first_name; flags = s.flags.items; queue = s.queue.items } };
}

/// Where it is dropped there is one call, and not a drop for each of its parts.
impl Drop for Search {
    fn drop(self) {
        let Search {
            first_name: _,
            flags: _,
            queue: _,
        } = self;
    }
}

impl Search {
    ghost use Rattle.object_graph.specs.Fields.{object_in};
    ghost use Rattle.object_graph.specs.Reached.{found, all_found, looked, searched};

    /// Nothing is flagged.
    pub(crate) fn new(alloc: Global, first_name: u64, count: usize) -> Result<Search, AllocError>
        ensures { IfOk result (λ s. s ≡ record { first_name = first_name; flags = replicate count false; queue = [] }) }
    {
        Ok(Search {
            first_name,
            flags: vec![in alloc; false; count]?,
            queue: Vec::new(alloc),
        })
    }

    /// A name's object is flagged, and joins the queue if it wasn't.
    fn find(&mut self, name: Pointer) -> Result<(), AllocError>
        ensures { OnOk result (self.new ≡ found self.old name) }
    {
        let Some(name) = name.name() else {
            return Ok(());
        };
        if self.first_name > name {
            return Ok(());
        }
        let place = (name - self.first_name) as usize;
        let Some(flag) = self.flags.get(place).copied() else {
            return Ok(());
        };
        if !flag {
            self.flags[place] = true;
            self.queue.push(place)?;
        }
        Ok(())
    }

    /// The same for each name of a list.
    pub(crate) fn find_all(&mut self, names: &[Pointer]) -> Result<(), AllocError>
        ensures { OnOk result (self.new ≡ all_found self.old names.now) }
    {
        for name in names {
            self.find(*name)?;
        }
        Ok(())
    }

    /// The same for each pointer of the object in a place.
    fn look_in(&mut self, objects: &Objects, place: usize) -> Result<(), AllocError>
        requires { place < length objects.now }
        ensures { OnOk result (self.new ≡ all_found self.old (object_in objects.now place).pointers) }
    {
        for field in 0..objects.pointer_count(place) {
            let Some(pointer) = objects.get_pointer(place, field) else {
                return Ok(());
            };
            self.find(pointer)?;
        }
        Ok(())
    }

    /// What the pointers of the object name that is in a place of the queue, if it has that place.
    fn look(&mut self, objects: &Objects, next: usize) -> Result<(), AllocError>
        ensures { OnOk result (self.new ≡ looked self.old objects.now next) }
    {
        let Some(place) = self.queue.get(next).copied() else {
            return Ok(());
        };
        if place >= objects.len() {
            return Ok(());
        }
        self.look_in(objects, place)
    }

    /// Every place of the queue is looked at, also those that join it, up to its end.
    pub(crate) fn look_at_all(&mut self, objects: &Objects) -> Result<(), AllocError>
        ensures { OnOk result (self.new ≡ searched self.old objects.now (length objects.now)) }
    {
        for next in 0..objects.len() {
            if self.queue.len() <= next {
                return Ok(());
            }
            self.look(objects, next)?;
        }
        Ok(())
    }

    /// The flags.
    pub(crate) fn into_flags(self) -> Vec<bool>
        ensures { result.items ≡ self.flags }
    {
        let Search {
            first_name: _,
            flags,
            queue: _,
        } = self;
        flags
    }
}
