//! The rules that a program has to meet: the first one that parts break, and where.
//!
//! A row is a fault, parts that have it, and parts beside them that are accepted, with `#` between them.
use crate::parts::{cut, op, parts};
use std::alloc::{AllocError, Global};
use std::test::Fail;
use word_program::{Program, ProgramFault, RawProgram, Section};

// The rules of the program as a whole.
const WHOLE: &str = "\
P01 top 0 0 # f~some|o u64[1]||= o[0] 1 # f~any|o u64[1]||= o[0] 1
P01 top 0 0 # f~Any|o u64[1]||= o[0] 1 # f~none|o u64[1]||= o[0] 1
P01 top 0 0 # f~|o u64[1]||= o[0] 1 # f|o u64[1]||= o[0] 1
P01 top 0 0 # f~any |o u64[1]||= o[0] 1 # f~any|o u64[1]|a u64|= o[0] a
P01 top 0 0 # f~none,any|o u64[1]||= o[0] 1 # f~none|o u64[1]|a u64|= o[0] a
P02 top 0 0 # 1f|o u64[1]||= o[0] 1 # f1|o u64[1]||= o[0] 1
P02 top 0 0 # _|o u64[1]||= o[0] 1 # __|o u64[1]||= o[0] 1
P02 top 0 0 # |o u64[1]||= o[0] 1 # F|o u64[1]||= o[0] 1
P02 top 0 0 # f-|o u64[1]||= o[0] 1 # f_|o u64[1]||= o[0] 1
P02 top 0 0 # é|o u64[1]||= o[0] 1 # e|o u64[1]||= o[0] 1
P02 top 0 0 # nnnnnnnnnnnnnnnnnnnnnnnnnnnnnnnnnnnnnnnnnnnnnnnnnnnnnnnnnnnnnnnnn|o u64[1]||= o[0] 1 # \
    nnnnnnnnnnnnnnnnnnnnnnnnnnnnnnnnnnnnnnnnnnnnnnnnnnnnnnnnnnnnnnnn|o u64[1]||= o[0] 1
P05 top 0 0 # f|o u64[1]|a0 u64;a1 u64;a2 u64;a3 u64;a4 u64;a5 u64|= o[0] 1 # f|o u64[1]|a0 u64;a1 u64;a2 u64;a3 \
    u64;a4 u64|= o[0] 1
P05 top 0 0 # f|o u64[1];p u64[1];q u64[1];r u64[1];s u64[1];t u64[1];u u64[1]||= o[0] 1;= p[0] 1;= q[0] 1;= r[0] 1;= \
    s[0] 1;= t[0] 1 # f|o u64[1];p u64[1];q u64[1];r u64[1];s u64[1];t u64[1]||= o[0] 1;= p[0] 1;= q[0] 1;= r[0] 1;= \
    s[0] 1;= t[0] 1
P15 top 0 0 # f||a u64|= _ a # f|o u64[1]|a u64|= o[0] a
P15 top 0 0 # f||| # f|o u64[1]||= o[0] 0
";

// The rules of parameters.
const PARAMETERS: &str = "\
P02 returns 0 0 # f|2 u64[1]||= o[0] 1 # f|o u64[1]||= o[0] 1
P02 returns 1 0 # f|o u64[1];_ u64[1]||= o[0] 1;= q[0] 1 # f|o u64[1];q u64[1]||= o[0] 1;= q[0] 1
P02 returns 1 0 # f|o u64[1];nnnnnnnnnnnnnnnnnnnnnnnnnnnnnnnnnnnnnnnnnnnnnnnnnnnnnnnnnnnnnnnnn u64[1]||= o[0] 1;= \
    nnnnnnnnnnnnnnnnnnnnnnnnnnnnnnnnnnnnnnnnnnnnnnnnnnnnnnnnnnnnnnnn[0] 1 # f|o \
    u64[1];nnnnnnnnnnnnnnnnnnnnnnnnnnnnnnnnnnnnnnnnnnnnnnnnnnnnnnnnnnnnnnnn u64[1]||= o[0] 1;= \
    nnnnnnnnnnnnnnnnnnnnnnnnnnnnnnnnnnnnnnnnnnnnnnnnnnnnnnnnnnnnnnnn[0] 1
P02 arguments 0 0 # f|o u64[1]|_ u64|= o[0] 1 # f|o u64[1]|_0 u64|= o[0] 1
P02 arguments 1 0 # f|o u64[1]|a u64;a.b u64|= o[0] 1 # f|o u64[1]|a u64;a_b u64|= o[0] 1
P02 arguments 0 0 # f|o u64[1]|nnnnnnnnnnnnnnnnnnnnnnnnnnnnnnnnnnnnnnnnnnnnnnnnnnnnnnnnnnnnnnnnn u64|= o[0] 1 # f|o \
    u64[1]|nnnnnnnnnnnnnnnnnnnnnnnnnnnnnnnnnnnnnnnnnnnnnnnnnnnnnnnnnnnnnnnn u64|= o[0] 1
P03 returns 0 0 # f|o u64||= o[0] 1 # f|o u64[1]||= o[0] 1
P03 returns 0 0 # f|o u1||= o[0] 1 # f|o u64[1]||= o[0] 1
P03 returns 0 0 # f|o u64[0]||= o[0] 1 # f|o u64[1]||= o[0] 1
P03 returns 0 0 # f|o u64[33]||= o[0] 1 # f|o u64[1]||= o[0] 1
P03 returns 0 0 # f|o u64[01]||= o[0] 1 # f|o u64[1]||= o[0] 1
P03 returns 0 0 # f|o u64[1||= o[0] 1 # f|o u64[1]||= o[0] 1
P03 returns 0 0 # f|o u64[1]x||= o[0] 1 # f|o u64[1]||= o[0] 1
P03 returns 0 0 # f|o u64[-1]||= o[0] 1 # f|o u64[1]||= o[0] 1
P03 returns 0 0 # f|o u32[1]||= o[0] 1 # f|o u64[1]||= o[0] 1
P03 returns 1 0 # f|o u64[1];q u64||= o[0] 1;= q[0] 1 # f|o u64[1];q u64[1]||= o[0] 1;= q[0] 1
P03 arguments 0 0 # f|o u64[1]|a u64[0]|= o[0] 1 # f|o u64[1]|a u64[1]|= o[0] 1
P03 arguments 0 0 # f|o u64[1]|a u64[33]|= o[0] 1 # f|o u64[1]|a u64[32]|= o[0] 1
P03 arguments 0 0 # f|o u64[1]|a u64[01]|= o[0] 1 # f|o u64[1]|a u64[10]|= o[0] 1
P03 arguments 0 0 # f|o u64[1]|a u64[4294967297]|= o[0] 1 # f|o u64[1]|a u64[9]|= o[0] 1
P03 arguments 0 0 # f|o u64[1]|a u64[]|= o[0] 1 # f|o u64[1]|a u64[1]|= o[0] 1
P03 arguments 0 0 # f|o u64[1]|a u1[1]|= o[0] 1 # f|o u64[1]|a u64[1]|= o[0] 1
P03 arguments 0 0 # f|o u64[1]|a u2|= o[0] 1 # f|o u64[1]|a u1|= o[0] 1
P03 arguments 0 0 # f|o u64[1]|a u32|= o[0] 1 # f|o u64[1]|a u64|= o[0] 1
P03 arguments 0 0 # f|o u64[1]|a U64|= o[0] 1 # f|o u64[1]|a u64|= o[0] 1
P03 arguments 0 0 # f|o u64[1]|a |= o[0] 1 # f|o u64[1]|a u64|= o[0] 1
P03 arguments 1 0 # f|o u64[1]|a u64;b u128|= o[0] 1 # f|o u64[1]|a u64;b u64|= o[0] 1
P04 returns 0 0 # f|o u64[1] ()||= o[0] 1 # f|o u64[1] 0||= o[0] 1
P04 returns 0 0 # f|o u64[1] 0/0||= o[0] 1 # f|o u64[1] 0||= o[0] 1
P04 returns 0 0 # f|o u64[1] - ()||= o[0] 1 # f|o u64[1] - 1||= o[0] 1
P04 returns 0 0 # f|o u64[1] - 1/1||= o[0] 1 # f|o u64[1] - 1||= o[0] 1
P04 returns 0 0 # f|o u64[1] x||= o[0] 1 # f|o u64[1] 0||= o[0] 1
P04 returns 0 0 # f|o u64[1] - x||= o[0] 1 # f|o u64[1] - 1||= o[0] 1
P04 returns 0 0 # f|o u64[1] 5 4||= o[0] 1 # f|o u64[1] 5 5||= o[0] 1
P04 returns 0 0 # f|o u64[1] - 18446744073709551616||= o[0] 1 # f|o u64[1] - 18446744073709551615||= o[0] 1
P04 returns 1 0 # f|o u64[1];q u64[1] 1 0||= o[0] 1;= q[0] 1 # f|o u64[1];q u64[1] 0 1||= o[0] 1;= q[0] 1
P04 arguments 0 0 # f|o u64[1]|a u64[2] 0|= o[0] 1 # f|o u64[1]|a u64[2] 0/0|= o[0] 1
P04 arguments 0 0 # f|o u64[1]|a u64[2] 0/0/0|= o[0] 1 # f|o u64[1]|a u64[2] 0/0|= o[0] 1
P04 arguments 0 0 # f|o u64[1]|a u64[2] - 7|= o[0] 1 # f|o u64[1]|a u64[2] - 7/7|= o[0] 1
P04 arguments 0 0 # f|o u64[1]|a u64[2] - 7/7/7|= o[0] 1 # f|o u64[1]|a u64[2] - 7/7|= o[0] 1
P04 arguments 0 0 # f|o u64[1]|a u64[2] - 7/|= o[0] 1 # f|o u64[1]|a u64[2] - 7/0|= o[0] 1
P04 arguments 0 0 # f|o u64[1]|a u64[2] 0/x|= o[0] 1 # f|o u64[1]|a u64[2] 0/0xF|= o[0] 1
P04 arguments 0 0 # f|o u64[1]|a u64[2] 0/6 9/5|= o[0] 1 # f|o u64[1]|a u64[2] 0/5 9/5|= o[0] 1
P04 arguments 0 0 # f|o u64[1]|a u64[2] 6/0 5/9|= o[0] 1 # f|o u64[1]|a u64[2] 5/0 5/9|= o[0] 1
P04 arguments 0 0 # f|o u64[1]|a u64 ()|= o[0] 1 # f|o u64[1]|a u64 0|= o[0] 1
P04 arguments 0 0 # f|o u64[1]|a u64 0/0|= o[0] 1 # f|o u64[1]|a u64 00|= o[0] 1
P04 arguments 0 0 # f|o u64[1]|a u64 - 1/1|= o[0] 1 # f|o u64[1]|a u64 - 1|= o[0] 1
P04 arguments 0 0 # f|o u64[1]|a u64 -1|= o[0] 1 # f|o u64[1]|a u64 1|= o[0] 1
P04 arguments 0 0 # f|o u64[1]|a u64 0x10000000000000000|= o[0] 1 # f|o u64[1]|a u64 0xffffffffffffffff|= o[0] 1
P04 arguments 0 0 # f|o u64[1]|a u64 5 4|= o[0] 1 # f|o u64[1]|a u64 4 5|= o[0] 1
P04 arguments 0 0 # f|o u64[1]|a u1 - 2|= o[0] 1 # f|o u64[1]|a u1 - 1|= o[0] 1
P04 arguments 0 0 # f|o u64[1]|a u1 2|= o[0] 1 # f|o u64[1]|a u1 1|= o[0] 1
P04 arguments 0 0 # f|o u64[1]|a u1 1 0|= o[0] 1 # f|o u64[1]|a u1 1 1|= o[0] 1
P04 arguments 0 0 # f|o u64[1]|a u1 0 18446744073709551615|= o[0] 1 # f|o u64[1]|a u1 0 0|= o[0] 1
P04 arguments 0 0 # f|o u64[1]|a u1 - ()|= o[0] 1 # f|o u64[1]|a u1 - 0|= o[0] 1
P04 arguments 0 0 # f|o u64[1]|a u1 0/0|= o[0] 1 # f|o u64[1]|a u1 0|= o[0] 1
P04 arguments 1 0 # f|o u64[1]|a u64;b u1 - 3|= o[0] 1 # f|o u64[1]|a u64;b u64 - 3|= o[0] 1
P10 returns 1 0 # f|o u64[1];o u64[1]||= o[0] 1;= q[0] 1 # f|o u64[1];q u64[1]||= o[0] 1;= q[0] 1
P10 arguments 0 0 # f|o u64[1]|o u64|= o[0] 1 # f|o u64[1]|O u64|= o[0] 1
P10 arguments 1 0 # f|o u64[1]|a u64;a u64[2]|= o[0] 1 # f|o u64[1]|a u64;b u64[2]|= o[0] 1
P10 arguments 2 0 # f|o u64[1]|a u64;b u64;a u1|= o[0] 1 # f|o u64[1]|a u64;b u64;c u1|= o[0] 1
";

// The rules of operations, behind these parameters.
const BEFORE: &str = "f|o u64[1]|a u64[2];b u64;c u1|";

const OPERATIONS: &str = "\
P07 body 0 0 # foo o[0] b # = o[0] b
P07 body 0 0 # ADDCARRYX o[0],_ c,b,b # addcarryx o[0],_ c,b,b
P07 body 0 0 # < o[0] b,1 # << o[0] b,1
P07 body 1 0 # = o[0] b;mul x b,b # = o[0] b;* x b,b
P08 body 0 0 # = o[0] # = o[0] b
P08 body 0 0 # = o[0] b,b # = o[0] b
P08 body 0 0 # ~ o[0] b,1 # ~ o[0] b
P08 body 0 0 # + o[0] b # + o[0] b,b
P08 body 0 0 # & o[0] b,b,b # & o[0] b,b
P08 body 0 0 # << o[0] b # << o[0] b,1
P08 body 0 0 # >> o[0] b,1,1 # >> o[0] b,1
P08 body 0 0 # shrd o[0] b,1 # shrd o[0] b,b,1
P08 body 0 0 # addcarryx o[0],x b,b # addcarryx o[0],x 0,b,b
P08 body 0 0 # cmovznz o[0] b,b # cmovznz o[0] c,b,b
P08 body 0 0 # mulx o[0] b,b # mulx o[0],_ b,b
P08 body 0 0 # * o[0],_ b,b # * o[0] b,b
P08 body 0 0 # subborrowx o[0],_,_ 0,b,b # subborrowx o[0],_ 0,b,b
P08 body 1 0 # = o[0] b;=  b # = o[0] b;= _ b
P09 body 0 1 # = o[0] x # = o[0] b
P09 body 0 1 # = o[0] a # = o[0] b
P09 body 0 1 # = o[0] a[2] # = o[0] a[1]
P09 body 0 1 # = o[0] a[00] # = o[0] a[0]
P09 body 0 1 # = o[0] a[18446744073709551616] # = o[0] a[0]
P09 body 0 1 # = o[0] a[] # = o[0] a[0]
P09 body 0 1 # = o[0] a[0]x # = o[0] a[0]
P09 body 0 1 # = o[0] b[0] # = o[0] b
P09 body 0 1 # = o[0] x[0] # = o[0] a[0]
P09 body 0 1 # = o[0] é # = o[0] b
P09 body 0 1 # = o[0] -1 # = o[0] 1
P09 body 0 1 # = o[0] +1 # = o[0] 1
P09 body 1 1 # = o[0] b;= x o # = o[0] b;= x b
P09 body 1 1 # = o[0] b;= x o[0] # = o[0] b;= x a[0]
P09 body 1 1 # = _ b;= o[0] _ # = x b;= o[0] x
P09 body 0 1 # = x y;= y b;= o[0] y # = y b;= x y;= o[0] y
P09 body 0 1 # = x x;= o[0] x # = x b;= o[0] x
P09 body 0 2 # + o[0] b,x # + o[0] b,c
P09 body 0 2 # + o[0] b, # + o[0] b,b
P09 body 0 3 # addcarryx o[0],_ c,b,x # addcarryx o[0],_ c,b,a[1]
P11 body 0 1 # = o[0] 18446744073709551616 # = o[0] 18446744073709551615
P11 body 0 1 # = o[0] 0x10000000000000000 # = o[0] 0xffffffffffffffff
P11 body 0 1 # = o[0] 0x # = o[0] 0x0
P11 body 0 1 # = o[0] 1x # = o[0] 01
P11 body 0 1 # = o[0] 0X1 # = o[0] 0x1
P11 body 0 1 # = o[0] 0xg # = o[0] 0xfF
P11 body 0 1 # = o[0] 1_0 # = o[0] 10
P11 body 0 1 # = o[0] 2é # = o[0] 2
P11 body 0 2 # + o[0] b,0b1 # + o[0] b,0x1
P11 body 0 3 # shrd o[0] b,b,1f # shrd o[0] b,b,1
P12 body 0 2 # << o[0] b,0 # << o[0] b,1
P12 body 0 2 # << o[0] b,64 # << o[0] b,63
P12 body 0 2 # << o[0] b,257 # << o[0] b,1
P12 body 0 2 # >> o[0] b,0x40 # >> o[0] b,0x3f
P12 body 0 2 # >> o[0] b,00 # >> o[0] b,01
P12 body 0 2 # >> o[0] b,c # >> o[0] b,1
P12 body 0 2 # >> o[0] b,18446744073709551615 # >> o[0] b,63
P12 body 0 3 # shrd o[0] b,b,64 # shrd o[0] b,b,63
P12 body 0 3 # shrd o[0] b,b,a[0] # shrd o[0] a[0],b,1
P12 body 1 2 # = x 1;<< o[0] b,x # = x 1;<< o[0] x,1
P13 body 0 1 # addcarryx o[0],_ b,b,b # addcarryx o[0],_ c,b,b
P13 body 0 1 # subborrowx o[0],_ 2,b,b # subborrowx o[0],_ 1,b,b
P13 body 0 1 # cmovznz o[0] a[0],b,b # cmovznz o[0] 0,b,b
P13 body 1 1 # addcarryx x,y 0,b,b;cmovznz o[0] x,1,2 # addcarryx y,x 0,b,b;cmovznz o[0] x,1,2
P13 body 1 1 # subborrowx x,y 0,b,b;cmovznz o[0] x,1,2 # subborrowx y,x 0,b,b;cmovznz o[0] x,1,2
P13 body 1 1 # mulx y,x c,c;cmovznz o[0] x,1,2 # & x c,c;cmovznz o[0] x,1,2
P13 body 1 1 # = x b;cmovznz o[0] x,1,2 # = x c;cmovznz o[0] x,1,2
P13 body 1 1 # & x b,b;cmovznz o[0] x,1,2 # & x b,c;cmovznz o[0] x,1,2
P13 body 1 1 # | x b,c;cmovznz o[0] x,1,2 # | x c,1;cmovznz o[0] x,1,2
P13 body 1 1 # ^ x c,b;cmovznz o[0] x,1,2 # ^ x c,c;cmovznz o[0] x,1,2
P13 body 1 1 # cmovznz x c,1,b;cmovznz o[0] x,1,2 # cmovznz x c,1,c;cmovznz o[0] x,1,2
P13 body 1 1 # cmovznz x c,b,1;cmovznz o[0] x,1,2 # cmovznz x c,c,1;cmovznz o[0] x,1,2
P13 body 1 1 # >> x b,62;cmovznz o[0] x,1,2 # >> x b,63;cmovznz o[0] x,1,2
P13 body 1 1 # << x c,1;cmovznz o[0] x,1,2 # & x c,b;cmovznz o[0] x,1,2
P13 body 1 1 # ~ x c;cmovznz o[0] x,1,2 # ^ x c,1;cmovznz o[0] x,1,2
P13 body 1 1 # + x c,c;cmovznz o[0] x,1,2 # | x c,c;cmovznz o[0] x,1,2
P13 body 1 1 # - x c,c;cmovznz o[0] x,1,2 # = x c;cmovznz o[0] x,1,2
P13 body 1 1 # * x c,c;cmovznz o[0] x,1,2 # & x c,c;cmovznz o[0] x,1,2
P13 body 1 1 # shrd x c,c,63;cmovznz o[0] x,1,2 # >> x c,63;cmovznz o[0] x,1,2
P02 body 0 2 # = o[00] b # = o[0] b
P02 body 0 2 # = o[0]x b # = o[0] b
P02 body 0 2 # = o[] b # = o[0] b
P02 body 0 2 # = o[ b # = o[0] b
P02 body 0 2 # = [0] b # = o[0] b
P02 body 0 2 # = _[0] b # = o[0] b
P02 body 1 2 # = o[0] b;= 1x b # = o[0] b;= x1 b
P02 body 1 2 # = o[0] b;= é b # = o[0] b;= e b
P02 body 1 2 # = o[0] b;= nnnnnnnnnnnnnnnnnnnnnnnnnnnnnnnnnnnnnnnnnnnnnnnnnnnnnnnnnnnnnnnnn b # = o[0] b;= \
    nnnnnnnnnnnnnnnnnnnnnnnnnnnnnnnnnnnnnnnnnnnnnnnnnnnnnnnnnnnnnnnn b
P02 body 0 3 # mulx ,o[0] b,b # mulx _,o[0] b,b
P02 body 0 4 # mulx o[0],1 b,b # mulx o[0],x b,b
P02 body 0 5 # addcarryx o[0],x.y 0,b,b # addcarryx o[0],xy 0,b,b
P10 body 0 2 # = o b # = o[0] b
P10 body 1 2 # = o[0] 1;= a 1 # = o[0] 1;= A 1
P10 body 1 2 # = o[0] 1;= c 1 # = o[0] 1;= d 1
P10 body 1 2 # = x 1;= x 2;= o[0] x # = x 1;= y 2;= o[0] x
P10 body 2 3 # = x 1;= o[0] x;mulx x,_ 1,2 # = x 1;= o[0] x;mulx _,_ 1,2
P10 body 0 4 # mulx x,x 1,2;= o[0] x # mulx x,y 1,2;= o[0] x
P14 body 0 2 # = o[1] 1 # = o[0] 1
P14 body 0 2 # = o[99999999999999999999] 1 # = o[0] 1
P14 body 0 2 # = a[0] 1 # = o[0] 1
P14 body 0 2 # = b[0] 1 # = o[0] 1
P14 body 0 2 # = x[0] 1 # = o[0] 1
P14 body 1 2 # = o[0] 1;= o[0] 2 # = o[0] 1;= x 2
P14 body 0 4 # mulx o[0],o[0] 1,2 # mulx o[0],_ 1,2
";

// Output words that are never written, and bits by the bounds of input words.
const OTHERS: &str = "\
P14 returns 0 0 # f|o u64[1]|| # f|o u64[1]||= o[0] 1
P14 returns 0 0 # f|o u64[1]|a u64|= _ a # f|o u64[1]|a u64|= o[0] a
P14 returns 0 1 # f|o u64[3]||= o[2] 1;= o[0] 1 # f|o u64[3]||= o[2] 1;= o[0] 1;= o[1] 1
P14 returns 1 1 # f|o u64[1];q u64[2]||= q[0] 1;= o[0] 1 # f|o u64[1];q u64[2]||= q[0] 1;= o[0] 1;= q[1] 1
P13 body 0 1 # f|o u64[1]|a u64 - 2|addcarryx o[0],_ a,1,1 # f|o u64[1]|a u64 - 1|addcarryx o[0],_ a,1,1
P13 body 0 1 # f|o u64[1]|a u64[2] - 1/2|cmovznz o[0] a[1],1,1 # f|o u64[1]|a u64[2] - 1/2|cmovznz o[0] a[0],1,1
";

// Faults, and parts that break two rules, of which this is the first.
const FIRST: &str = "\
P01 top 0 0 # 1f~some|||
P01 top 0 0 # f~some||a0 u64;a1 u64;a2 u64;a3 u64;a4 u64;a5 u64;a6 u64|
P01 top 0 0 # f~some|2 u64||foo
P02 top 0 0 # 1f~any|||
P02 top 0 0 # 1f|o u64[1]|a0 u64;a1 u64;a2 u64;a3 u64;a4 u64;a5 u64|
P02 top 0 0 # 1f|||
P05 top 0 0 # f||a0 u64;a1 u64;a2 u64;a3 u64;a4 u64;a5 u64;a6 u64|
P15 top 0 0 # f||2 u64|= _ a
P15 top 0 0 # f|||foo
P02 returns 0 0 # f|2 u64||
P02 returns 1 0 # f|o u64[1];2 u64[1] 5 4||
P03 returns 0 0 # f|o u64 5 4||
P03 returns 1 0 # f|o u64[1];o u64||
P04 returns 1 0 # f|o u64[1];o u64[1] 5 4||
P10 returns 1 0 # f|o u64[1];o u64[1];2 u64[1]||
P03 returns 0 0 # f|o u64;2 u64[1]||
P04 returns 0 0 # f|o u64[1] x|2 u64|
P10 returns 1 0 # f|o u64[1];o u64[1]|1 u64|
P02 arguments 0 0 # f|o u64[1]|_ u32|
P02 arguments 0 0 # f|o u64[1]|_ u64 5 4|
P03 arguments 0 0 # f|o u64[1]|o u32|
P03 arguments 0 0 # f|o u64[1]|a u32 5 4|
P04 arguments 0 0 # f|o u64[1]|o u1 - 2|
P04 arguments 0 0 # f|o u64[1]|a u1 - 2;2 u64|
P10 arguments 0 0 # f|o u64[1]|o u64|foo
P03 arguments 1 0 # f|o u64[1]|a u64;b u2|foo x y
P14 body 1 2 # f|o u64[2]||= o[0] 1;= o[0] 1
P07 body 0 0 # f|o u64[1]||foo _ 1
";

// The same of operations, behind the parameters of `BEFORE`.
const FIRST_OPERATIONS: &str = "\
P07 body 0 0 # foo 1x x
P08 body 0 0 # mulx 1x x,y
P08 body 0 0 # addcarryx _,_ b,x
P09 body 0 1 # = 1x x
P09 body 0 1 # + _ x,1x
P11 body 0 1 # + _ 1x,x
P11 body 0 1 # << _ 1x,64
P09 body 0 1 # addcarryx _,_ x,1x,1
P13 body 0 1 # addcarryx 1x,_ b,x,1
P13 body 0 1 # cmovznz _ b,1x,x
P09 body 0 2 # << 1x b,x
P11 body 0 2 # << 1x b,0x
P12 body 0 2 # << 1x b,64
P12 body 0 3 # shrd a b,b,0
P13 body 0 1 # addcarryx a,_ b,1,1
P09 body 0 3 # addcarryx a,1x c,b,x
P02 body 0 3 # mulx 1x,a b,b
P10 body 0 3 # mulx a,1x b,b
P14 body 0 3 # mulx a[0],a b,b
P14 body 0 3 # mulx o[1],1x b,b
P10 body 0 3 # mulx a,o[1] b,b
P02 body 0 2 # = 1x b;foo
P10 body 0 2 # = a b;= 1x x
P08 body 1 0 # = o[0] b;= _;foo
P11 body 1 1 # = _ b;= _ 0x
";

// Parts with 2,049 operations, and their fault.
const LONG: &[(&str, &str)] = &[
    ("f|o u64[32]|a u64|", "P06 top 0 0"),
    ("f||a u64|", "P06 top 0 0"),
    ("f|2 u64[32]|a u64|", "P06 top 0 0"),
    (
        "f|o u64[32];p u64;q u64;r u64|a u64;b u64;c u64|",
        "P05 top 0 0",
    ),
    ("2|o u64[32]|a u64|", "P02 top 0 0"),
];

fn name_of(section: Section) -> &'static str {
    match section {
        Section::Top => "top",
        Section::Returns => "returns",
        Section::Arguments => "arguments",
        Section::Body => "body",
    }
}

// The fault of these parts, or that there is none.
fn fault_of(alloc: Global, parts: &RawProgram) -> Result<String, AllocError> {
    match Program::new(alloc, parts) {
        Ok(_) => String::from_str(alloc, "accepted"),
        Err(ProgramFault::Rule { code, place }) => {
            let (section, item, inner) = (name_of(place.section), place.item, place.inner);
            format!(in alloc; "P{code:02} {section} {item} {inner}")
        }
        Err(ProgramFault::Memory) => String::from_str(alloc, "no memory"),
    }
}

fn answer(alloc: Global, row: &str) -> Result<String, AllocError> {
    let parts = parts(alloc, row)?;
    fault_of(alloc, &parts)
}

#[test]
fn each_rule_is_refused_at_its_place(rt: HostRuntime) -> Result<(), Fail> {
    for table in [WHOLE, PARAMETERS, OTHERS] {
        for row in table.lines() {
            let (fault, rest) = cut(row, '#');
            let (refused, accepted) = cut(rest, '#');
            assert_eq!(rt;
                answer(rt.alloc(), refused.trim())?.as_str(),
                fault.trim(),
                "{row}"
            );
            assert_eq!(rt;
                answer(rt.alloc(), accepted.trim())?.as_str(),
                "accepted",
                "{row}"
            );
        }
    }
    Ok(())
}

#[test]
fn each_rule_of_an_operation_is_refused_at_its_place(rt: HostRuntime) -> Result<(), Fail> {
    for row in OPERATIONS.lines() {
        let (fault, rest) = cut(row, '#');
        let (refused, accepted) = cut(rest, '#');
        let refused = format!(in rt.alloc(); "{BEFORE}{}", refused.trim())?;
        let accepted = format!(in rt.alloc(); "{BEFORE}{}", accepted.trim())?;
        assert_eq!(rt;
            answer(rt.alloc(), refused.as_str())?.as_str(),
            fault.trim(),
            "{row}"
        );
        assert_eq!(rt;
            answer(rt.alloc(), accepted.as_str())?.as_str(),
            "accepted",
            "{row}"
        );
    }
    Ok(())
}

#[test]
fn the_first_of_two_faults_decides(rt: HostRuntime) -> Result<(), Fail> {
    for row in FIRST.lines() {
        let (fault, parts) = cut(row, '#');
        assert_eq!(rt;
            answer(rt.alloc(), parts.trim())?.as_str(),
            fault.trim(),
            "{row}"
        );
    }
    for row in FIRST_OPERATIONS.lines() {
        let (fault, operations) = cut(row, '#');
        let parts = format!(in rt.alloc(); "{BEFORE}{}", operations.trim())?;
        assert_eq!(rt;
            answer(rt.alloc(), parts.as_str())?.as_str(),
            fault.trim(),
            "{row}"
        );
    }
    Ok(())
}

// The parts that a row spells, and behind them operations that write each word of `o` and then compute on.
fn long_parts(alloc: Global, row: &str, operations: u32) -> Result<RawProgram, AllocError> {
    let mut long = parts(alloc, row)?;
    for number in 0..operations {
        let text = if number < 32 {
            format!(in alloc; "= o[{number}] a")?
        } else {
            String::from_str(alloc, "mulx _,_ a,a")?
        };
        long.body.push(op(alloc, text.as_str())?)?;
    }
    Ok(long)
}

#[test]
fn at_most_2048_operations(rt: HostRuntime) -> Result<(), Fail> {
    let parts = long_parts(rt.alloc(), "f|o u64[32]|a u64|", 2048)?;
    let program = Program::new(rt.alloc(), &parts)?;
    assert_eq!(rt; program.ops().len(), 2048);
    assert_eq!(rt; program.values(), 4064);
    for (row, fault) in LONG {
        let parts = long_parts(rt.alloc(), row, 2049)?;
        assert_eq!(rt; fault_of(rt.alloc(), &parts)?.as_str(), *fault, "{row}");
    }
    Ok(())
}
