//! Actions of a mutator, in a line each.

use heap_steps::{Action, Counts, GlobalRoot, Register, Reply};

pub(crate) fn r(number: u32) -> Register {
    Register { number }
}

pub(crate) fn g(number: u32) -> GlobalRoot {
    GlobalRoot { number }
}

pub(crate) fn new(to: u32, pointers: u32, values: u32) -> Action {
    Action::New {
        to: r(to),
        counts: Counts { pointers, values },
    }
}

pub(crate) fn get(to: u32, object: u32, field: u32) -> Action {
    Action::Get {
        to: r(to),
        object: r(object),
        field,
    }
}

pub(crate) fn read(object: u32, field: u32) -> Action {
    Action::Read {
        object: r(object),
        field,
    }
}

pub(crate) fn put(object: u32, field: u32, value: u32) -> Action {
    Action::Put {
        object: r(object),
        field,
        value: Some(r(value)),
    }
}

pub(crate) fn put_nil(object: u32, field: u32) -> Action {
    Action::Put {
        object: r(object),
        field,
        value: None,
    }
}

pub(crate) fn write(object: u32, field: u32, value: u64) -> Action {
    Action::Write {
        object: r(object),
        field,
        value,
    }
}

/// The reply that names an object.
pub(crate) fn named(name: u64) -> Reply {
    Reply::Named(Some(name))
}

pub(crate) fn new_weak(to: u32, pointers: u32, weaks: u8, values: u32) -> Action {
    Action::NewWeak {
        to: r(to),
        counts: Counts { pointers, values },
        weaks,
    }
}

pub(crate) fn get_weak(to: u32, object: u32, slot: u32) -> Action {
    Action::GetWeak {
        to: r(to),
        object: r(object),
        slot,
    }
}

pub(crate) fn put_weak(object: u32, slot: u32, value: u32) -> Action {
    Action::PutWeak {
        object: r(object),
        slot,
        value: Some(r(value)),
    }
}
