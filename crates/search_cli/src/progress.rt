//! How far a search is, told on standard error.
use search_top::Gate;
use std::env;
use std::rt::{Clock, Env};
use std::sync::{Mutex, Wait};
use std::time::{Duration, Instant};

/// The variable of the environment by which `./run` asks for it: it is set where standard error is a terminal.
const ASKED_BY: &str = "MALLARDBERTH_PROGRESS";

/// How long the line stays at least, in milliseconds.
const SHOWN_FOR: u64 = 100;

/// A gate that counts the offers that were settled, and shows the count, at most ten times a second.
#[derive(Drop)]
pub struct Progress<'a, R: Eprint + Clock + Wait> {
    rt: &'a R,
    is_asked: bool,
    count: Mutex<Count>,
}

#[derive(Clone, Copy)]
struct Count {
    offers: u64,
    shown: Option<Instant>,
}

/// Whether the environment asks for the count.
pub fn is_asked<R: Env + Alloc>(rt: &R) -> bool {
    env::var(rt, ASKED_BY).is_ok()
}

impl<'a, R: Eprint + Clock + Wait> Progress<'a, R> {
    /// A gate that shows the count where it is asked for.
    pub fn new(rt: &'a R, is_asked: bool) -> Progress<'a, R> {
        Progress {
            rt,
            is_asked,
            count: Mutex::new(Count {
                offers: 0,
                shown: None,
            }),
        }
    }

    /// Takes the line away.
    pub fn clear(&self) {
        if self.is_asked {
            let _ = eprint!(self.rt; "\r\x1b[K");
        }
    }

    /// One offer more: the number to show, where it is time to.
    fn next(&self) -> Option<u64> {
        let now = Instant::now(self.rt).ok()?;
        let mut count = self.count.lock(self.rt);
        count.offers = count.offers.saturating_add(1);
        if let Some(shown) = count.shown {
            if now.duration_since(shown) < Duration::from_millis(SHOWN_FOR) {
                return None;
            }
        }
        count.shown = Some(now);
        Some(count.offers)
    }
}

impl<R: Eprint + Clock + Wait> Gate for Progress<'_, R> {
    fn began(&self, _lane: u8, _turn: u32) {}

    fn validating(&self, _lane: u8, _turn: u32) {}

    fn settled(&self, _lane: u8, _turn: u32) {
        if !self.is_asked {
            return;
        }
        if let Some(offers) = self.next() {
            let _ = eprint!(self.rt; "\rsearch: {offers} offers\x1b[K");
        }
    }
}
