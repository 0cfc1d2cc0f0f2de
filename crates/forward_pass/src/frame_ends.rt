//! The lines at both ends of a listing: the frame, and the registers that the caller wants back.

use draft_lines::{Draft, Form, Source, instruction_of};
use pass_state::{Pass, frame_word};
use register_spill::RegSet;
use std::alloc::AllocError;
use x86_instr::{Bin, Instr, Line, Lines, Owner, REGISTERS, Reg, Src};

/// A line at the end.
fn push_line(lines: &mut Lines, draft: Draft) -> Result<(), AllocError> {
    let Some(instr) = instruction_of(&draft) else {
        return Ok(());
    };
    let owner = match draft.owner {
        Some(op) => Owner::new(op),
        None => None,
    };
    lines.push(Line { instr, owner })
}

/// The lines of the pass, without the holes.
fn push_drafts(lines: &mut Lines, drafts: &[Draft]) -> Result<(), AllocError> {
    for draft in drafts {
        push_line(lines, *draft)?;
    }
    Ok(())
}

/// Moves `rsp` by so many words.
fn push_frame(lines: &mut Lines, op: Bin, words: usize) -> Result<(), AllocError> {
    if words == 0 {
        return Ok(());
    }
    let bytes = i32::try_from(words.saturating_mul(8)).unwrap_or(0);
    lines.push(Line {
        instr: Instr::Bin {
            op,
            dst: Reg::Rsp,
            src: Src::Imm(bytes),
        },
        owner: None,
    })
}

/// Saves registers behind the first words of the frame. The first saves have owners.
fn push_saves(
    lines: &mut Lines,
    saved: RegSet,
    first: usize,
    leads: &[u16],
) -> Result<(), AllocError> {
    let kept = REGISTERS.iter().filter(|reg| saved.has(**reg));
    for (number, reg) in kept.enumerate() {
        let save = Draft::new(Form::Store, *reg, frame_word(first.saturating_add(number)));
        push_line(lines, save.owned_by(leads.get(number).copied()))?;
    }
    Ok(())
}

/// The lines that do nothing of the operations for which there was no save.
fn push_idle_leads(lines: &mut Lines, leads: &[u16]) -> Result<(), AllocError> {
    for op in leads {
        let idle = Draft::mov(Reg::Rax, Source::Register(Reg::Rax));
        push_line(lines, idle.owned_by(Some(*op)))?;
    }
    Ok(())
}

fn push_restores(lines: &mut Lines, saved: RegSet, first: usize) -> Result<(), AllocError> {
    let kept = REGISTERS.iter().filter(|reg| saved.has(**reg));
    for (number, reg) in kept.enumerate() {
        let place = frame_word(first.saturating_add(number));
        push_line(lines, Draft::mov(*reg, place))?;
    }
    Ok(())
}

/// The leads behind the first ones.
fn leads_behind(leads: &[u16], count: usize) -> &[u16] {
    match leads.get(count..) {
        Some(rest) => rest,
        None => &[],
    }
}

/// All lines of a listing, with a frame of so many words.
pub fn push_all(lines: &mut Lines, pass: &Pass, saves: usize) -> Result<(), AllocError> {
    let first = pass.frame_words();
    let words = first.saturating_add(saves);
    let leads = pass.lines.leads();
    push_frame(lines, Bin::Sub, words)?;
    push_saves(lines, pass.saved(), first, leads)?;
    push_idle_leads(lines, leads_behind(leads, saves))?;
    push_drafts(lines, pass.lines.drafts())?;
    push_restores(lines, pass.saved(), first)?;
    push_frame(lines, Bin::Add, words)?;
    lines.push(Line {
        instr: Instr::Ret,
        owner: None,
    })
}
