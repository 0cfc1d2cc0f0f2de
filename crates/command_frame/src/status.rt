ghost use Rattle.std.specs.Prelude.{◌≡◌, ◌++◌, IfOk, OnOk, codes, decimal, string_bytes};
ghost use Rattle.command_frame.specs.Status.{exit_of, listing_text, section_text, code_text, place_text, too_long_text};
ghost use Rattle.command_frame.specs.Status.{program_fault_text, inputs_text, out_of_bounds_text, line_of};
ghost use Rattle.command_frame.specs.Status.{node_text, difference_text, why_text};
ghost use Rattle.command_frame.specs.Status.{entry_text, costs_text, replay_text};
ghost use Rattle.asm_operands.specs.Names.{reg_text};

use asm_operands::register_name;
use base::Text;
use equiv_validator::Why;
use itoa::Buffer;
use journal_replay::ReplayFault;
use std::alloc::{AllocError, Global};
use word_text::{Place, Section};
use x86_instr::{ListingFault, Reg};

/// How a command ended.
#[derive(Drop)]
pub enum Status {
    /// All of it was done.
    Ok,
    /// The words are not those of a command.
    Usage,
    /// The file of this name could not be read.
    ReadFault(Text),
    /// The file of this name has more bytes than this limit.
    TooLong(Text, u64),
    /// The program's file is not JSON.
    NotJson,
    /// The program breaks the rule with this code first, at this place.
    Program(u8, Place),
    /// The file of this name, or standard output where the name is `-`, could not be written.
    WriteFault(Text),
    /// This line of the assembly file, counted from 1, is the first that is no line of assembly text there.
    Text(u32),
    /// The assembly text has the lines of no listing.
    Listing(ListingFault),
    /// The listing is not proved for the program, and this is the first failure.
    Not(Why),
    /// The listing's run is stuck at this line, counted from 1.
    Stuck(u32),
    /// There are this many inputs, and the program wants that many.
    Inputs { given: u64, wanted: u64 },
    /// This input word, counted from 0, is the first one outside its bounds.
    OutOfBounds(u32),
    /// This line of the journal's file, counted from 1, is the first that is faulty. Where the text ends early, it is
    /// the number of its whole lines plus 1.
    Journal(u32),
    /// Line 1 of the journal's file is right but for this number, which is no version that is read.
    Version(u64),
    /// The journal and the listing do not replay, and this check is the first that fails.
    Replay(ReplayFault),
    /// There is no memory left.
    OutOfMemory,
}

/// The exit status of the process.
pub fn exit_of(status: &Status) -> u8
    ensures { result ≡ exit_of status.now }
{
    match status {
        Status::Ok => 0,
        Status::Usage => 2,
        Status::ReadFault(_) => 3,
        Status::TooLong(..) => 4,
        Status::NotJson => 5,
        Status::Program(..) => 6,
        Status::WriteFault(_) => 7,
        Status::Text(_) => 8,
        Status::Listing(_) => 9,
        Status::Not(_) => 10,
        Status::Stuck(_) => 11,
        Status::Inputs { .. } => 12,
        Status::OutOfBounds(_) => 13,
        Status::Journal(_) => 14,
        Status::Version(_) => 15,
        Status::Replay(_) => 16,
        Status::OutOfMemory => 17,
    }
}

/// The line for standard error without its line feed, which is empty for [`Status::Ok`]. The one error is
/// want of memory.
pub fn line_of(alloc: Global, status: &Status) -> Result<Text, AllocError>
    ensures { IfOk result (λ line. line ≡ line_of status.now) }
{
    let mut line = String::new(alloc);
    push_line(&mut line, status)?;
    Text::from_str(alloc, line.as_str())
}

#[tactic(auto, unfolding(crate::specs::Status::line_of))]
fn push_line(line: &mut String, status: &Status) -> Result<(), AllocError>
    ensures { OnOk result (string_bytes line.new ≡ string_bytes line.old ++ line_of status.now) }
{
    match status {
        Status::Ok => Ok(()),
        Status::Usage => line.push_str("usage"),
        Status::ReadFault(name) => push_named(line, "cannot read ", name),
        Status::TooLong(name, limit) => push_too_long(line, name.as_str(), *limit),
        Status::NotJson => line.push_str("not JSON"),
        Status::Program(code, place) => push_program_fault(line, *code, *place),
        Status::WriteFault(name) => push_named(line, "cannot write ", name),
        Status::Text(number) => push_numbered(line, "assembly line ", *number as u64),
        Status::Listing(fault) => line.push_str(listing_text(*fault)),
        Status::Not(why) => push_not_proved(line, *why),
        Status::Stuck(number) => push_numbered(line, "stuck at ", *number as u64),
        Status::Inputs { given, wanted } => push_inputs(line, *given, *wanted),
        Status::OutOfBounds(word) => push_out_of_bounds(line, *word),
        Status::Journal(number) => push_numbered(line, "journal line ", *number as u64),
        Status::Version(found) => push_numbered(line, "journal version ", *found),
        Status::Replay(fault) => push_replay(line, *fault),
        Status::OutOfMemory => line.push_str("out of memory"),
    }
}

fn push_named(line: &mut String, front: &str, name: &Text) -> Result<(), AllocError>
    ensures { OnOk result (string_bytes line.new ≡ string_bytes line.old ++ (front.now ++ name.now)) }
{
    line.push_str(front)?;
    line.push_str(name.as_str())
}

fn push_numbered(line: &mut String, front: &str, number: u64) -> Result<(), AllocError>
    ensures { OnOk result (string_bytes line.new ≡ string_bytes line.old ++ (front.now ++ decimal number)) }
{
    line.push_str(front)?;
    line.push_str(Buffer::new().format(number))
}

fn listing_text(fault: ListingFault) -> &'static str
    ensures { result.now ≡ listing_text fault }
{
    match fault {
        ListingFault::TooLong => "listing too long",
        ListingFault::NoReturn => "listing without its return",
    }
}

#[tactic(auto, unfolding(crate::specs::Status::too_long_text))]
fn push_too_long(line: &mut String, name: &str, limit: u64) -> Result<(), AllocError>
    ensures { OnOk result (string_bytes line.new ≡ string_bytes line.old ++ too_long_text name.now limit) }
{
    line.push_str(name)?;
    line.push_str(" has more than ")?;
    line.push_str(Buffer::new().format(limit))?;
    line.push_str(" bytes")?;
    Ok(())
}

fn push_replay(line: &mut String, fault: ReplayFault) -> Result<(), AllocError>
    ensures { OnOk result (string_bytes line.new ≡ string_bytes line.old ++ replay_text fault) }
{
    match fault {
        ReplayFault::Digest { .. } => line.push_str("replay: digest"),
        ReplayFault::Entry { number, rule } => push_entry(line, number, rule),
        ReplayFault::Realises { slot } => push_numbered(line, "replay: slot ", slot as u64),
        ReplayFault::Cost { recorded, table } => push_costs(line, recorded, table),
        ReplayFault::NotProved(why) => push_not_replayed(line, why),
        ReplayFault::Memory => line.push_str("out of memory"),
    }
}

#[tactic(auto, unfolding(crate::specs::Status::entry_text))]
fn push_entry(line: &mut String, number: u32, rule: u8) -> Result<(), AllocError>
    ensures { OnOk result (string_bytes line.new ≡ string_bytes line.old ++ entry_text number rule) }
{
    push_numbered(line, "replay: entry ", number as u64)?;
    push_numbered(line, " rule ", rule as u64)?;
    Ok(())
}

#[tactic(auto, unfolding(crate::specs::Status::costs_text))]
fn push_costs(line: &mut String, recorded: u64, table: u64) -> Result<(), AllocError>
    ensures { OnOk result (string_bytes line.new ≡ string_bytes line.old ++ costs_text recorded table) }
{
    push_numbered(line, "replay: cost ", recorded)?;
    push_numbered(line, " table ", table)?;
    Ok(())
}

fn push_not_replayed(line: &mut String, why: Why) -> Result<(), AllocError>
    ensures { OnOk result (string_bytes line.new ≡ string_bytes line.old
        ++ (codes "replay: " ++ (codes "not proved: " ++ why_text why))) }
{
    line.push_str("replay: ")?;
    push_not_proved(line, why)?;
    Ok(())
}

fn push_not_proved(line: &mut String, why: Why) -> Result<(), AllocError>
    ensures { OnOk result (string_bytes line.new ≡ string_bytes line.old ++ (codes "not proved: " ++ why_text why)) }
{
    line.push_str("not proved: ")?;
    push_why(line, why)?;
    Ok(())
}

#[tactic(auto, unfolding(crate::specs::Status::why_text))]
fn push_why(line: &mut String, why: Why) -> Result<(), AllocError>
    ensures { OnOk result (string_bytes line.new ≡ string_bytes line.old ++ why_text why) }
{
    match why {
        Why::Stuck { line: number } => push_numbered(line, "stuck at ", number as u64),
        Why::Output {
            word,
            source,
            listing,
        } => push_difference(line, word, source, listing),
        Why::Saved { reg } => push_register(line, reg),
        Why::Stack => line.push_str("stack"),
    }
}

#[tactic(auto, unfolding(crate::specs::Status::difference_text))]
fn push_difference(
    line: &mut String,
    word: u32,
    source: u32,
    listing: Option<u32>,
) -> Result<(), AllocError>
    ensures { OnOk result (string_bytes line.new ≡ string_bytes line.old ++ difference_text word source listing) }
{
    push_numbered(line, "output ", word as u64)?;
    push_numbered(line, " node ", source as u64)?;
    line.push_str(" against ")?;
    push_node(line, listing)
}

fn push_node(line: &mut String, node: Option<u32>) -> Result<(), AllocError>
    ensures { OnOk result (string_bytes line.new ≡ string_bytes line.old ++ node_text node) }
{
    match node {
        Some(node) => line.push_str(Buffer::new().format(node)),
        None => line.push_str("none"),
    }
}

fn push_register(line: &mut String, reg: Reg) -> Result<(), AllocError>
    ensures { OnOk result (string_bytes line.new ≡ string_bytes line.old ++ (codes "register " ++ reg_text reg)) }
{
    line.push_str("register ")?;
    line.push_str(register_name(reg))
}

#[tactic(auto, unfolding(crate::specs::Status::inputs_text))]
fn push_inputs(line: &mut String, given: u64, wanted: u64) -> Result<(), AllocError>
    ensures { OnOk result (string_bytes line.new ≡ string_bytes line.old ++ inputs_text given wanted) }
{
    line.push_str(Buffer::new().format(given))?;
    line.push_str(" inputs, ")?;
    line.push_str(Buffer::new().format(wanted))?;
    line.push_str(" wanted")
}

#[tactic(auto, unfolding(crate::specs::Status::out_of_bounds_text))]
fn push_out_of_bounds(line: &mut String, word: u32) -> Result<(), AllocError>
    ensures { OnOk result (string_bytes line.new ≡ string_bytes line.old ++ out_of_bounds_text word) }
{
    line.push_str("input ")?;
    line.push_str(Buffer::new().format(word))?;
    line.push_str(" out of bounds")
}

#[tactic(auto, unfolding(crate::specs::Status::program_fault_text))]
fn push_program_fault(line: &mut String, code: u8, place: Place) -> Result<(), AllocError>
    ensures { OnOk result (string_bytes line.new ≡ string_bytes line.old ++ program_fault_text code place) }
{
    line.push_str("program fault P")?;
    push_code(line, code)?;
    line.push_str(" at ")?;
    push_place(line, place)?;
    Ok(())
}

#[tactic(auto, unfolding(crate::specs::Status::code_text))]
fn push_code(line: &mut String, code: u8) -> Result<(), AllocError>
    ensures { OnOk result (string_bytes line.new ≡ string_bytes line.old ++ code_text code) }
{
    if code < 10 {
        line.push_str("0")?;
    }
    line.push_str(Buffer::new().format(code))
}

#[tactic(auto, unfolding(crate::specs::Status::place_text))]
fn push_place(line: &mut String, place: Place) -> Result<(), AllocError>
    ensures { OnOk result (string_bytes line.new ≡ string_bytes line.old ++ place_text place) }
{
    line.push_str(section_text(place.section))?;
    line.push_str(" ")?;
    line.push_str(Buffer::new().format(place.item))?;
    line.push_str(" ")?;
    line.push_str(Buffer::new().format(place.inner))
}

fn section_text(section: Section) -> &'static str
    ensures { result.now ≡ section_text section }
{
    match section {
        Section::Top => "top",
        Section::Returns => "returns",
        Section::Arguments => "arguments",
        Section::Body => "body",
    }
}
