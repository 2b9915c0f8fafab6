// How many numbers each part of a record has, and where it begins.
use control::{SLOTS, THREADS};

// The settings, a file's banks, a thread's own numbers, a slot.
pub(crate) const SETTINGS: usize = 7;

pub(crate) const BANKS: usize = 4;

pub(crate) const OWN: usize = 10;

pub(crate) const SLOT: usize = 12;

// ---- what follows

// The settings stand first; then SrcA's banks, SrcB's banks and the last SrcA row.
pub(crate) const BANKS_A: usize = SETTINGS;

pub(crate) const BANKS_B: usize = BANKS_A + BANKS;

pub(crate) const LAST_ROW: usize = BANKS_B + BANKS;

// What the threads share, a thread, a record.
pub(crate) const SHARED: usize = LAST_ROW + 1;

pub(crate) const THREAD: usize = OWN + SLOTS * SLOT;

pub(crate) const RECORD: usize = SHARED + THREADS * THREAD;

// Where each thread begins.
pub(crate) const THREAD_0: usize = SHARED;

pub(crate) const THREAD_1: usize = THREAD_0 + THREAD;

pub(crate) const THREAD_2: usize = THREAD_1 + THREAD;
