ghost use Rattle.std.specs.Prelude.{◌≡◌, ◌<◌, Bool, false, length, replicate, slice_set, IfOk};
ghost use Rattle.word_program.specs.Values.{targets_of};
ghost use Rattle.flag_tracks.specs.declared.home.Home.TheVariants.{Gone};
ghost use Rattle.flag_tracks.specs.Homes as spec;
ghost use Rattle.flag_tracks.specs.Inside.{carry_if, overflow_if};

use crate::home::{Home, flag_of};
use std::alloc::{AllocError, Global};
use std::marker::Model;
use word_program::Program;
use x86_instr::{Flags, Instr};

/// Where each value of a program is kept. Contracts see the list of the homes, by value number.
#[derive(Drop)]
pub struct Tracks {
    homes: Vec<Home>,
    carry: Option<u16>,
    overflow: Option<u16>,
}

impl Model for Tracks {
    ghost use Rattle.std.specs.Prelude.{List};
    ghost use Rattle.flag_tracks.specs.declared.home.Home.{Home};
    ghost use Rattle.flag_tracks.specs.Inside.{IsInside};

    ghost Value = { List Home };

    ghost view = { λ t. t.homes.items };

    ghost invariant = { λ t. IsInside t.homes.items t.carry t.overflow };
}

/// As many values that are nowhere.
fn nowhere(alloc: Global, count: u32) -> Result<Vec<Home>, AllocError>
    ensures { IfOk result (λ homes. homes.items ≡ replicate count Gone) }
{
    let mut homes = Vec::new(alloc);
    for _ in 0..count {
        homes.push(Home::Gone)?;
    }
    Ok(homes)
}

impl Tracks {
    /// Each value of the program is nowhere. The one error is want of memory.
    pub fn new(alloc: Global, program: &Program) -> Result<Tracks, AllocError>
        ensures { IfOk result (λ tracks. tracks ≡ replicate (length (targets_of program.now.ops)) Gone) }
    {
        let homes = nowhere(alloc, program.values())?;
        Ok(Tracks {
            homes,
            carry: None,
            overflow: None,
        })
    }

    /// How many values there are.
    pub fn count(&self) -> usize
        ensures { result ≡ length self.now }
    {
        self.homes.len()
    }

    /// Where the value with this number is kept.
    pub fn home(&self, value: u16) -> Home
        requires { value < length self.now }
        ensures home { result ≡ spec.home_at self.now value }
        ensures alone { spec.AreAlone self.now }
    {
        self.homes[value as usize]
    }

    /// Gives the value with this number a home. Where that is a flag, another value that was in it is nowhere then.
    /// Every other value stays where it is.
    pub fn put(&mut self, value: u16, home: Home)
        requires { value < length self.old }
        ensures homes { self.new ≡ spec.put_home self.old value home }
        ensures count { length self.new ≡ length self.old }
    {
        self.empty(flag_of(home));
        self.lose(value);
        self.settle(value, home);
    }

    /// Each value in a flag that the instruction sets, clears or leaves undefined is nowhere then. Every other value
    /// stays where it is.
    #[tactic(auto, unfolding(crate::specs::Homes::killed), using(crate::proofs::HomeLemmas::length_emptied))]
    pub fn kill(&mut self, instr: &Instr)
        ensures homes { self.new ≡ spec.killed instr.now self.old }
        ensures count { length self.new ≡ length self.old }
    {
        self.empty(instr.flags_written());
    }

    /// No value is in any of these flags any more.
    fn empty(&mut self, flags: Flags)
        ensures { self.new ≡ spec.emptied flags self.old }
    {
        self.empty_carry(flags.cf);
        self.empty_overflow(flags.of);
    }

    /// No value is in the carry flag any more, where that is asked for.
    fn empty_carry(&mut self, asked: bool)
        ensures { self.new ≡ spec.emptied (carry_if asked) self.old }
    {
        if !asked {
            return;
        }
        let Some(value) = self.carry else {
            return;
        };
        self.homes[value as usize] = Home::Gone;
        self.carry = None;
    }

    /// No value is in the overflow flag any more, where that is asked for.
    fn empty_overflow(&mut self, asked: bool)
        ensures { self.new ≡ spec.emptied (overflow_if asked) self.old }
    {
        if !asked {
            return;
        }
        let Some(value) = self.overflow else {
            return;
        };
        self.homes[value as usize] = Home::Gone;
        self.overflow = None;
    }

    /// The value is nowhere.
    fn lose(&mut self, value: u16)
        requires { value < length self.old }
        ensures { self.new ≡ slice_set self.old value Gone }
    {
        match self.homes[value as usize] {
            Home::Cf => self.carry = None,
            Home::Of => self.overflow = None,
            Home::Register(_) | Home::Slot(_) | Home::Gone => {}
        }
        self.homes[value as usize] = Home::Gone;
    }

    /// The value, which is nowhere, has this home, in which no other value is where it is a flag.
    fn settle(&mut self, value: u16, home: Home)
        requires range { value < length self.old }
        requires nowhere { spec.home_at self.old value ≡ Gone }
        requires free { spec.emptied (spec.flag_of home) self.old ≡ self.old }
        ensures { self.new ≡ slice_set self.old value home }
    {
        match home {
            Home::Cf => self.carry = Some(value),
            Home::Of => self.overflow = Some(value),
            Home::Register(_) | Home::Slot(_) | Home::Gone => {}
        }
        self.homes[value as usize] = home;
    }
}
