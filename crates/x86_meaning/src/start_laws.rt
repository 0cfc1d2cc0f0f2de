//! Laws of start states: functions that do nothing, whose contracts are the laws.

ghost use Rattle.std.specs.Prelude.{◌≡◌, ℕ, ◌%◌, Bool, List, Option, None, IsSome};
ghost use Rattle.std.specs.FinMap as map;
ghost use Rattle.word_program.specs.Accepted.{IsAccepted};
ghost use Rattle.word_program.specs.Program.{Source};
ghost use Rattle.word_program.specs.Values.{input_bounds, AreWithin};
ghost use Rattle.x86_instr.specs.declared.line.Line.{Line};
ghost use Rattle.x86_instr.specs.declared.operand.Reg.{Reg};
ghost use Rattle.x86_instr.specs.Frame.{frame_of};
ghost use Rattle.x86_meaning.specs.declared.state.State.{State};
ghost use Rattle.x86_meaning.specs.Machine.{IsWord, reg, with_reg};
ghost use Rattle.x86_meaning.specs.Start.{IsStart};
ghost use Rattle.x86_meaning.specs.StartLaws.{IsFreeRegister, IsNeeded, IsNoInput, MeetConvention, StartsWith, word_at};
ghost use Rattle.x86_meaning.specs.Stated.{AreParams, AreWords, IsStated};

/// The stated start state of a listing, for a program of at most six parameters with arrays of at most 32
/// words, is a start for inputs that are words within their bounds.
pub fn stated_state_is_start()
    ensures { (program : Source) (lines : List Line) (inputs : List ℕ) (s : State) → AreParams program.params
        → AreWords inputs → AreWithin inputs (input_bounds program.params) → IsStated program lines inputs s
        → IsStart program lines inputs s }
{}

/// Every function can start: there is a start state of each listing for each program that the rules accept, on
/// all inputs that are words within their bounds, and the stated one is such a state.
pub fn functions_can_start()
    ensures { (program : Source) (lines : List Line) (inputs : List ℕ) → IsAccepted program → AreWords inputs
        → AreWithin inputs (input_bounds program.params)
        → (s : State) × IsStated program lines inputs s × IsStart program lines inputs s }
{}

/// A register that neither passes a parameter nor is the stack pointer may hold any word at the start: a start with
/// another word in it is a start.
pub fn other_registers_are_free()
    ensures { (program : Source) (lines : List Line) (inputs : List ℕ) (s : State) → IsStart program lines inputs s
        → (r : Reg) (word : ℕ) → IsFreeRegister program.params r → IsWord word
        → IsStart program lines inputs (with_reg r word s) }
{}

/// Each flag may be set, clear or undefined at the start.
pub fn flags_are_free()
    ensures { (program : Source) (lines : List Line) (inputs : List ℕ) (s : State) → IsStart program lines inputs s
        → (cf of zf : Option Bool) → IsStart program lines inputs (record s { cf = cf; of = of; zf = zf }) }
{}

/// A cell of no input array, be it in an output array, in the frame, the return cell or another one, may hold any
/// word at the start, and the memory may have any further cells.
pub fn other_cells_are_free()
    ensures held { (program : Source) (lines : List Line) (inputs : List ℕ) (s : State) → IsStart program lines inputs s
        → (address word : ℕ) → IsSome (map.get s.cells address) → IsNoInput program.params s address → IsWord word
        → IsStart program lines inputs (record s { cells = map.insert s.cells address word }) }
    ensures further { (program : Source) (lines : List Line) (inputs : List ℕ) (s : State)
        → IsStart program lines inputs s
        → (address word : ℕ) → map.get s.cells address ≡ None → IsWord address → address % 8 ≡ 0 → IsWord word
        → IsStart program lines inputs (record s { cells = map.insert s.cells address word }) }
{}

/// For all words in the registers and all contents of the memory that meet the calling convention there is a start
/// with these registers, whose memory has the arrays, the frame and the return cell, and nothing else, with
/// this content. So arrays and the stack may lie anywhere; two input arrays at one place are a case of it.
pub fn functions_start_anywhere()
    ensures { (program : Source) (lines : List Line) (inputs : List ℕ) (regs : Reg → ℕ) (content : ℕ → ℕ)
        → MeetConvention program (frame_of lines) inputs regs content → StartsWith program lines inputs regs content }
{}

/// And there is no other start: the registers and the memory of each meet the convention, and the memory has the
/// arrays, the frame and the return cell.
pub fn starts_meet_the_convention()
    ensures meet { (program : Source) (lines : List Line) (inputs : List ℕ) (s : State) → IsStart program lines inputs s
        → MeetConvention program (frame_of lines) inputs (reg s) (word_at s) }
    ensures there { (program : Source) (lines : List Line) (inputs : List ℕ) (s : State)
        → IsStart program lines inputs s
        → (address : ℕ) → IsNeeded program.params (frame_of lines) (reg s) address → IsSome (map.get s.cells address) }
{}
