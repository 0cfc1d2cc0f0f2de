//! Listings, mnemonics and operands, by the public calls of `x86_instr`.
use crate::reading;
use std::alloc::{AllocError, Global};
use std::test::Fail;
use x86_instr::{
    Bin, IndexReg, Instr, Line, Lines, Listing, ListingFault, Mnemonic, Owner, Reg, Scale,
    ShiftCount, Src, Text, mnemonic_of,
};

fn line(instr: Instr) -> Line {
    Line {
        instr,
        owner: Owner::new(0),
    }
}

// The listing of a `ret` for each of these letters that is `r`, and a `clc` for each other one.
fn listing_of(alloc: Global, letters: &str) -> Result<Result<Listing, ListingFault>, AllocError> {
    let mut lines = Lines::new(alloc);
    for letter in letters.chars() {
        lines.push(line(if letter == 'r' {
            Instr::Ret
        } else {
            Instr::Clc
        }))?;
    }
    Ok(Listing::new(alloc, Text::from_str(alloc, "f")?, lines))
}

#[test]
fn only_a_last_ret_ends_a_listing(rt: HostRuntime) -> Result<(), AllocError> {
    for (letters, good) in [
        ("r", true),
        ("cr", true),
        ("", false),
        ("c", false),
        ("rr", false),
        ("crcr", false),
        ("rc", false),
    ] {
        match listing_of(rt.alloc(), letters)? {
            Ok(_) => assert!(rt; good, "{letters} make a listing"),
            Err(fault) => assert!(rt; !good && fault == ListingFault::NoReturn, "{letters}"),
        }
    }
    Ok(())
}

#[test]
fn a_listing_has_at_most_65536_lines(rt: HostRuntime) -> Result<(), AllocError> {
    for (count, long) in [(65536, false), (65537, true)] {
        let mut lines = Lines::new(rt.alloc());
        for _ in 1..count {
            lines.push(line(Instr::Clc))?;
        }
        lines.push(line(Instr::Ret))?;
        match Listing::new(rt.alloc(), Text::from_str(rt.alloc(), "f")?, lines) {
            Ok(listing) => assert!(rt; !long && listing.lines().len() == 65536),
            Err(fault) => assert!(rt; long && fault == ListingFault::TooLong),
        }
    }
    Ok(())
}

#[test]
fn a_first_sub_from_rsp_reserves_a_frame(rt: HostRuntime) -> Result<(), AllocError> {
    for (op, dst, bytes, frame) in [
        (Bin::Sub, Reg::Rsp, 8, 8),
        (Bin::Sub, Reg::Rsp, 24, 24),
        (Bin::Sub, Reg::Rsp, 32816, 32816),
        (Bin::Sub, Reg::Rsp, 32824, 0),
        (Bin::Sub, Reg::Rsp, 12, 0),
        (Bin::Sub, Reg::Rsp, 0, 0),
        (Bin::Sub, Reg::Rsp, -8, 0),
        (Bin::Add, Reg::Rsp, 24, 0),
        (Bin::Sub, Reg::Rax, 24, 0),
    ] {
        let mut lines = Lines::new(rt.alloc());
        let src = Src::Imm(bytes);
        lines.push(line(Instr::Bin { op, dst, src }))?;
        lines.push(line(Instr::Ret))?;
        let listing = Listing::new(rt.alloc(), Text::from_str(rt.alloc(), "f")?, lines);
        let listing = listing.expect(&rt, "the lines are a listing");
        assert!(rt; listing.frame() == frame && listing.name().as_str() == "f");
    }
    Ok(())
}

#[test]
fn a_mnemonic_has_its_own_name(rt: HostRuntime) -> Result<(), Fail> {
    for (text, mnemonic) in [
        ("mov [rbx], rax", Mnemonic::Mov),
        ("mov rax, 18446744073709551615", Mnemonic::Mov),
        ("sbb rax, rax", Mnemonic::Sbb),
        ("cmovnc rax, rcx", Mnemonic::Cmovnc),
        ("setz al", Mnemonic::Setz),
        ("neg rax", Mnemonic::Neg),
        ("shlx rax, rcx, rdx", Mnemonic::Shlx),
    ] {
        let listing = reading::listing_of(rt.alloc(), text)?;
        let listing = listing.expect(&rt, "the text is an instruction");
        let line = listing.lines().first().expect(&rt, "a listing has a line");
        assert!(rt; mnemonic_of(&line.instr) == mnemonic, "{text}");
    }
    Ok(())
}

#[test]
fn numbers_out_of_range_make_no_operands(rt: HostRuntime) -> Result<(), AllocError> {
    for (bits, good) in [(0, false), (1, true), (63, true), (64, false), (255, false)] {
        assert!(rt;
            ShiftCount::new(bits).is_some() == good,
            "a count of {bits}"
        );
    }
    for (factor, good) in [
        (0, false),
        (1, true),
        (2, true),
        (3, false),
        (4, true),
        (8, true),
        (16, false),
    ] {
        assert!(rt; Scale::new(factor).is_some() == good, "a scale of {factor}");
    }
    assert!(rt; IndexReg::new(Reg::Rsp).is_none() && IndexReg::new(Reg::R12).is_some());
    assert!(rt; Owner::new(2047).is_some() && Owner::new(2048).is_none());
    Ok(())
}
