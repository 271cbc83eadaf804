//! What a gate was told.

use rtm_model::Entry;
use std::alloc::{AllocError, Global};
use std::sync::OnceLock;
use std::sync::atomic::{AtomicU64, Ordering};

// More entries than a deck of these tests makes.
const MOST: usize = 400;

/// The entries that a gate was told of, by their numbers, and how often of each number.
#[derive(Drop)]
pub(crate) struct Record {
    entries: Vec<OnceLock<Entry>>,
    calls: Vec<AtomicU64>,
    others: AtomicU64,
}

impl Record {
    pub(crate) fn new(alloc: Global) -> Result<Record, AllocError> {
        let mut entries = Vec::new(alloc);
        let mut calls = Vec::new(alloc);
        for _ in 0..MOST {
            entries.push(OnceLock::new())?;
            calls.push(AtomicU64::new(0))?;
        }
        let others = AtomicU64::new(0);
        Ok(Record {
            entries,
            calls,
            others,
        })
    }

    pub(crate) fn note(&self, index: u32, entry: &Entry) {
        match (
            self.entries.get(index as usize),
            self.calls.get(index as usize),
        ) {
            (Some(cell), Some(calls)) => {
                let _is_first = cell.try_set(*entry).is_ok();
                calls.fetch_add(1, Ordering::SeqCst);
            }
            _ => {
                self.others.fetch_add(1, Ordering::SeqCst);
            }
        }
    }

    /// Whether the gate was told of each entry of the trace once, with its number, and of nothing else.
    pub(crate) fn is_of(&self, trace: &[Entry]) -> bool {
        if trace.len() > MOST || self.others.load(Ordering::SeqCst) != 0 {
            return false;
        }
        for (index, calls) in self.calls.iter().enumerate() {
            let wanted = if index < trace.len() { 1 } else { 0 };
            if calls.load(Ordering::SeqCst) != wanted {
                return false;
            }
        }
        for (cell, entry) in self.entries.iter().zip(trace) {
            match cell.get() {
                Some(told) => {
                    if *told != *entry {
                        return false;
                    }
                }
                None => return false,
            }
        }
        true
    }
}
