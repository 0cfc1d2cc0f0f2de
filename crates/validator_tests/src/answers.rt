//! Checks of listings together with the plan that they are to realise.
use crate::checks::failure_text;
use crate::programs::COPY1;
use crate::reading::{named_listing, prepared_of};
use crate::rows::parts_of;
use equiv_validator::{Answer, Checked, Prepared};
use op_order::Plan;
use std::alloc::{AllocError, Global};
use std::test::Fail;
use x86_instr::Listing;

// Three sums, one behind the other.
const SUMS: &str = r#"{"operation":"sums","returns":[{"name":"o","datatype":"u64[1]"}],
"arguments":[{"name":"a","datatype":"u64"},{"name":"b","datatype":"u64"}],"body":
[{"operation":"+","name":["s"],"arguments":["a","b"]},
{"operation":"+","name":["t"],"arguments":["s","b"]},
{"operation":"+","name":["o[0]"],"arguments":["t","b"]}]}"#;

// A program, a listing's lines with the operations that own them, and the answer for the opening plan: the cost of a
// listing that is kept, the slot at which it differs, or why it is not proved.
const ROWS: &str = "\
copy1 | sub rsp, 24; mov [rsp], rdi; mov [rsp + 8], rsi; mov rcx, [rsp + 8]; mov rcx, [rcx]; mov rax, rcx # 0; \
    mov r11, [rsp]; mov [r11], rax; add rsp, 24; ret | yes 28
copy1 | sub rsp, 24; mov [rsp], rdi; mov [rsp + 8], rsi; mov rcx, [rsp + 8]; mov rcx, [rcx]; mov rax, rcx; \
    mov r11, [rsp]; mov [r11], rax; add rsp, 24; ret | differs 0
copy1 | mov rax, [rsi] # 0; mov [rdi], rax; ret | yes 9
copy1 | mov rax, [rsi]; mov [rdi], rax # 0; ret | yes 9
copy1 | mov rax, [rsi] # 0; mov [rdi], rax # 0; ret | differs 1
copy1 | mov rax, [rsi] # 0; mov [rdi], rax # 1; ret | differs 1
copy1 | mov rax, [rsi] # 0; mov [rdi], rax; ret # 0 | differs 1
copy1 | mov rax, [rsi] # 1; mov [rdi], rax; ret | differs 0
copy1 | lea rax, [rsi] # 0; mov [rdi], rax; ret | differs 0
copy1 | mov rax, rsi # 0; mov [rdi], rax; ret | output 0 16 6
copy1 | mov rbx, [rsi] # 0; mov [rdi], rbx; ret | saved Rbx
copy1 | mov rax, [rsi + 8] # 0; ret | stuck 1
sums | add rsi, rdx # 0; add rsi, rdx # 1; add rsi, rdx # 2; mov [rdi], rsi; ret | yes 7
sums | add rsi, rdx # 0; add rsi, rdx # 1; lea rsi, [rsi + rdx] # 2; mov [rdi], rsi; ret | differs 2
sums | add rsi, rdx # 1; add rsi, rdx # 0; add rsi, rdx # 2; mov [rdi], rsi; ret | differs 0
sums | add rsi, rdx # 0; add rsi, rdx # 1; add rsi, rdx; mov [rdi], rsi; ret | differs 2
sums | add rsi, rdx # 0; add rsi, rdx # 2; add rsi, rdx # 1; mov [rdi], rsi; ret | differs 1
sums | add rsi, rdx # 0; add rsi, rdx # 1; add rsi, rdx # 2; mov [rdi], rdx; ret | output 0 20 17";

fn program_named(name: &str) -> &'static str {
    match name {
        "copy1" => COPY1,
        _ => SUMS,
    }
}

// The answer for the opening plan.
fn answer_of(
    alloc: Global,
    prepared: &Prepared,
    listing: Listing,
) -> Result<Option<Answer>, AllocError> {
    let plan = Plan::opening(alloc, prepared.program())?;
    if listing.name() != prepared.program().name() {
        return Ok(None);
    }
    Ok(Some(Checked::checked(alloc, prepared, plan, listing)?))
}

// Whether a plan is the opening plan, with its room.
fn is_opening(alloc: Global, prepared: &Prepared, plan: &Plan) -> Result<bool, AllocError> {
    let opening = Plan::opening(alloc, prepared.program())?;
    Ok(plan.same(&opening) && plan.room() == opening.room())
}

// The text, where the plan is the one that was given.
fn told(
    alloc: Global,
    prepared: &Prepared,
    plan: &Plan,
    text: String,
) -> Result<String, AllocError> {
    if is_opening(alloc, prepared, plan)? {
        return Ok(text);
    }
    String::from_str(alloc, "another plan")
}

// The cost of what is kept, where it is the program that was given and a listing with its name.
fn kept_text(alloc: Global, prepared: &Prepared, checked: &Checked) -> Result<String, AllocError> {
    if !checked.program().same(prepared.program()) {
        return String::from_str(alloc, "another program");
    }
    if checked.listing().name() != prepared.program().name() {
        return String::from_str(alloc, "another name");
    }
    format!(in alloc; "yes {}", checked.cost())
}

// An answer's name with its number behind it.
fn answer_text(alloc: Global, prepared: &Prepared, answer: Answer) -> Result<String, AllocError> {
    match answer {
        Answer::Yes(checked) => {
            let text = kept_text(alloc, prepared, &checked)?;
            told(alloc, prepared, checked.plan(), text)
        }
        Answer::Differs { slot, plan } => {
            let text = format!(in alloc; "differs {slot}")?;
            told(alloc, prepared, &plan, text)
        }
        Answer::Not { why, plan } => {
            let text = failure_text(alloc, why)?;
            told(alloc, prepared, &plan, text)
        }
    }
}

// The answer of a row's program and lines.
fn text_of(alloc: Global, name: &str, lines: &str) -> Result<Option<String>, Fail> {
    let Some(prepared) = prepared_of(alloc, program_named(name))? else {
        return Ok(None);
    };
    let lines = lines.replace(alloc, "; ", "\n")?;
    let Some(listing) = named_listing(alloc, name, lines.as_str())? else {
        return Ok(None);
    };
    match answer_of(alloc, &prepared, listing)? {
        Some(answer) => Ok(Some(answer_text(alloc, &prepared, answer)?)),
        None => Ok(None),
    }
}

#[test]
fn listings_are_compared_with_the_opening_plan(rt: HostRuntime) -> Result<(), Fail> {
    for row in ROWS.lines() {
        let (name, lines, answer) = parts_of(row).expect(&rt, "a row has three parts");
        let text = text_of(rt.alloc(), name, lines)?.expect(&rt, "the row has its listing");
        assert!(rt; text.as_str() == answer, "{row}");
    }
    Ok(())
}
