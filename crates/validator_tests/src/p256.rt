//! The product of the field of P-256, as Fiat Cryptography writes it for words of 64 bits, and a listing of it in the
//! plain form: every operand is loaded from an array or the frame, and every result is stored there.
ghost use Rattle.std.specs.Prelude.{◌≡◌, [], OnOk};
ghost use Rattle.program_nodes.specs.Sources.{source_made};

use crate::checks::verdict_text;
use crate::programs::operation_of;
use crate::reading::{listing_of, prepared_of};
use equiv_validator::{Prepared, Verdict, check, check_on};
use std::alloc::{AllocError, Global};
use std::test::Fail;
use term_store::Tail;
use x86_instr::Listing;

// The operations, a line each.
const OPERATIONS: &str = "\
x1 = = arg1[1]
x2 = = arg1[2]
x3 = = arg1[3]
x4 = = arg1[0]
x5 x6 = mulx x4 arg2[3]
x7 x8 = mulx x4 arg2[2]
x9 x10 = mulx x4 arg2[1]
x11 x12 = mulx x4 arg2[0]
x13 x14 = addcarryx 0x0 x12 x9
x15 x16 = addcarryx x14 x10 x7
x17 x18 = addcarryx x16 x8 x5
x19 = + x18 x6
x20 x21 = mulx x11 0xffffffff00000001
x22 x23 = mulx x11 0xffffffff
x24 x25 = mulx x11 0xffffffffffffffff
x26 x27 = addcarryx 0x0 x25 x22
x28 = + x27 x23
_ x30 = addcarryx 0x0 x11 x24
x31 x32 = addcarryx x30 x13 x26
x33 x34 = addcarryx x32 x15 x28
x35 x36 = addcarryx x34 x17 x20
x37 x38 = addcarryx x36 x19 x21
x39 x40 = mulx x1 arg2[3]
x41 x42 = mulx x1 arg2[2]
x43 x44 = mulx x1 arg2[1]
x45 x46 = mulx x1 arg2[0]
x47 x48 = addcarryx 0x0 x46 x43
x49 x50 = addcarryx x48 x44 x41
x51 x52 = addcarryx x50 x42 x39
x53 = + x52 x40
x54 x55 = addcarryx 0x0 x31 x45
x56 x57 = addcarryx x55 x33 x47
x58 x59 = addcarryx x57 x35 x49
x60 x61 = addcarryx x59 x37 x51
x62 x63 = addcarryx x61 x38 x53
x64 x65 = mulx x54 0xffffffff00000001
x66 x67 = mulx x54 0xffffffff
x68 x69 = mulx x54 0xffffffffffffffff
x70 x71 = addcarryx 0x0 x69 x66
x72 = + x71 x67
_ x74 = addcarryx 0x0 x54 x68
x75 x76 = addcarryx x74 x56 x70
x77 x78 = addcarryx x76 x58 x72
x79 x80 = addcarryx x78 x60 x64
x81 x82 = addcarryx x80 x62 x65
x83 = + x82 x63
x84 x85 = mulx x2 arg2[3]
x86 x87 = mulx x2 arg2[2]
x88 x89 = mulx x2 arg2[1]
x90 x91 = mulx x2 arg2[0]
x92 x93 = addcarryx 0x0 x91 x88
x94 x95 = addcarryx x93 x89 x86
x96 x97 = addcarryx x95 x87 x84
x98 = + x97 x85
x99 x100 = addcarryx 0x0 x75 x90
x101 x102 = addcarryx x100 x77 x92
x103 x104 = addcarryx x102 x79 x94
x105 x106 = addcarryx x104 x81 x96
x107 x108 = addcarryx x106 x83 x98
x109 x110 = mulx x99 0xffffffff00000001
x111 x112 = mulx x99 0xffffffff
x113 x114 = mulx x99 0xffffffffffffffff
x115 x116 = addcarryx 0x0 x114 x111
x117 = + x116 x112
_ x119 = addcarryx 0x0 x99 x113
x120 x121 = addcarryx x119 x101 x115
x122 x123 = addcarryx x121 x103 x117
x124 x125 = addcarryx x123 x105 x109
x126 x127 = addcarryx x125 x107 x110
x128 = + x127 x108
x129 x130 = mulx x3 arg2[3]
x131 x132 = mulx x3 arg2[2]
x133 x134 = mulx x3 arg2[1]
x135 x136 = mulx x3 arg2[0]
x137 x138 = addcarryx 0x0 x136 x133
x139 x140 = addcarryx x138 x134 x131
x141 x142 = addcarryx x140 x132 x129
x143 = + x142 x130
x144 x145 = addcarryx 0x0 x120 x135
x146 x147 = addcarryx x145 x122 x137
x148 x149 = addcarryx x147 x124 x139
x150 x151 = addcarryx x149 x126 x141
x152 x153 = addcarryx x151 x128 x143
x154 x155 = mulx x144 0xffffffff00000001
x156 x157 = mulx x144 0xffffffff
x158 x159 = mulx x144 0xffffffffffffffff
x160 x161 = addcarryx 0x0 x159 x156
x162 = + x161 x157
_ x164 = addcarryx 0x0 x144 x158
x165 x166 = addcarryx x164 x146 x160
x167 x168 = addcarryx x166 x148 x162
x169 x170 = addcarryx x168 x150 x154
x171 x172 = addcarryx x170 x152 x155
x173 = + x172 x153
x174 x175 = subborrowx 0x0 x165 0xffffffffffffffff
x176 x177 = subborrowx x175 x167 0xffffffff
x178 x179 = subborrowx x177 x169 0x0
x180 x181 = subborrowx x179 x171 0xffffffff00000001
_ x183 = subborrowx x181 x173 0x0
x184 = cmovznz x183 x174 x165
x185 = cmovznz x183 x176 x167
x186 = cmovznz x183 x178 x169
x187 = cmovznz x183 x180 x171
out1[0] = = x184
out1[1] = = x185
out1[2] = = x186
out1[3] = = x187";

// The instructions, in order.
const LINES: &str = "\
sub rsp, 1480; mov [rsp], rdi; mov [rsp + 8], rsi; mov [rsp + 16], rdx; mov rax, [rsp + 8]
mov rax, [rax + 8]; mov [rsp + 24], rax; mov rax, [rsp + 8]; mov rax, [rax + 16]; mov [rsp + 32], rax
mov rax, [rsp + 8]; mov rax, [rax + 24]; mov [rsp + 40], rax; mov rax, [rsp + 8]; mov rax, [rax + 0]
mov [rsp + 48], rax; mov rdx, [rsp + 48]; mov rcx, [rsp + 16]; mov rcx, [rcx + 24]; mulx rcx, rax, rcx
mov [rsp + 56], rax; mov [rsp + 64], rcx; mov rdx, [rsp + 48]; mov rcx, [rsp + 16]; mov rcx, [rcx + 16]
mulx rcx, rax, rcx; mov [rsp + 72], rax; mov [rsp + 80], rcx; mov rdx, [rsp + 48]; mov rcx, [rsp + 16]
mov rcx, [rcx + 8]; mulx rcx, rax, rcx; mov [rsp + 88], rax; mov [rsp + 96], rcx; mov rdx, [rsp + 48]
mov rcx, [rsp + 16]; mov rcx, [rcx + 0]; mulx rcx, rax, rcx; mov [rsp + 104], rax; mov [rsp + 112], rcx
mov r10, 0; mov rax, [rsp + 112]; mov rcx, [rsp + 88]; add r10, -1; adc rax, rcx; mov r10, 0; adc r10, 0
mov [rsp + 120], rax; mov [rsp + 128], r10; mov r10, [rsp + 128]; mov rax, [rsp + 96]; mov rcx, [rsp + 72]
add r10, -1; adc rax, rcx; mov r10, 0; adc r10, 0; mov [rsp + 136], rax; mov [rsp + 144], r10
mov r10, [rsp + 144]; mov rax, [rsp + 80]; mov rcx, [rsp + 56]; add r10, -1; adc rax, rcx; mov r10, 0
adc r10, 0; mov [rsp + 152], rax; mov [rsp + 160], r10; mov rax, [rsp + 160]; mov rcx, [rsp + 64]; add rax, rcx
mov [rsp + 168], rax; mov rdx, [rsp + 104]; mov rcx, 18446744069414584321; mulx rcx, rax, rcx
mov [rsp + 176], rax; mov [rsp + 184], rcx; mov rdx, [rsp + 104]; mov rcx, 4294967295; mulx rcx, rax, rcx
mov [rsp + 192], rax; mov [rsp + 200], rcx; mov rdx, [rsp + 104]; mov rcx, 18446744073709551615
mulx rcx, rax, rcx; mov [rsp + 208], rax; mov [rsp + 216], rcx; mov r10, 0; mov rax, [rsp + 216]
mov rcx, [rsp + 192]; add r10, -1; adc rax, rcx; mov r10, 0; adc r10, 0; mov [rsp + 224], rax
mov [rsp + 232], r10; mov rax, [rsp + 232]; mov rcx, [rsp + 200]; add rax, rcx; mov [rsp + 240], rax; mov r10, 0
mov rax, [rsp + 104]; mov rcx, [rsp + 208]; add r10, -1; adc rax, rcx; mov r10, 0; adc r10, 0
mov [rsp + 248], r10; mov r10, [rsp + 248]; mov rax, [rsp + 120]; mov rcx, [rsp + 224]; add r10, -1
adc rax, rcx; mov r10, 0; adc r10, 0; mov [rsp + 256], rax; mov [rsp + 264], r10; mov r10, [rsp + 264]
mov rax, [rsp + 136]; mov rcx, [rsp + 240]; add r10, -1; adc rax, rcx; mov r10, 0; adc r10, 0
mov [rsp + 272], rax; mov [rsp + 280], r10; mov r10, [rsp + 280]; mov rax, [rsp + 152]; mov rcx, [rsp + 176]
add r10, -1; adc rax, rcx; mov r10, 0; adc r10, 0; mov [rsp + 288], rax; mov [rsp + 296], r10
mov r10, [rsp + 296]; mov rax, [rsp + 168]; mov rcx, [rsp + 184]; add r10, -1; adc rax, rcx; mov r10, 0
adc r10, 0; mov [rsp + 304], rax; mov [rsp + 312], r10; mov rdx, [rsp + 24]; mov rcx, [rsp + 16]
mov rcx, [rcx + 24]; mulx rcx, rax, rcx; mov [rsp + 320], rax; mov [rsp + 328], rcx; mov rdx, [rsp + 24]
mov rcx, [rsp + 16]; mov rcx, [rcx + 16]; mulx rcx, rax, rcx; mov [rsp + 336], rax; mov [rsp + 344], rcx
mov rdx, [rsp + 24]; mov rcx, [rsp + 16]; mov rcx, [rcx + 8]; mulx rcx, rax, rcx; mov [rsp + 352], rax
mov [rsp + 360], rcx; mov rdx, [rsp + 24]; mov rcx, [rsp + 16]; mov rcx, [rcx + 0]; mulx rcx, rax, rcx
mov [rsp + 368], rax; mov [rsp + 376], rcx; mov r10, 0; mov rax, [rsp + 376]; mov rcx, [rsp + 352]; add r10, -1
adc rax, rcx; mov r10, 0; adc r10, 0; mov [rsp + 384], rax; mov [rsp + 392], r10; mov r10, [rsp + 392]
mov rax, [rsp + 360]; mov rcx, [rsp + 336]; add r10, -1; adc rax, rcx; mov r10, 0; adc r10, 0
mov [rsp + 400], rax; mov [rsp + 408], r10; mov r10, [rsp + 408]; mov rax, [rsp + 344]; mov rcx, [rsp + 320]
add r10, -1; adc rax, rcx; mov r10, 0; adc r10, 0; mov [rsp + 416], rax; mov [rsp + 424], r10
mov rax, [rsp + 424]; mov rcx, [rsp + 328]; add rax, rcx; mov [rsp + 432], rax; mov r10, 0; mov rax, [rsp + 256]
mov rcx, [rsp + 368]; add r10, -1; adc rax, rcx; mov r10, 0; adc r10, 0; mov [rsp + 440], rax
mov [rsp + 448], r10; mov r10, [rsp + 448]; mov rax, [rsp + 272]; mov rcx, [rsp + 384]; add r10, -1
adc rax, rcx; mov r10, 0; adc r10, 0; mov [rsp + 456], rax; mov [rsp + 464], r10; mov r10, [rsp + 464]
mov rax, [rsp + 288]; mov rcx, [rsp + 400]; add r10, -1; adc rax, rcx; mov r10, 0; adc r10, 0
mov [rsp + 472], rax; mov [rsp + 480], r10; mov r10, [rsp + 480]; mov rax, [rsp + 304]; mov rcx, [rsp + 416]
add r10, -1; adc rax, rcx; mov r10, 0; adc r10, 0; mov [rsp + 488], rax; mov [rsp + 496], r10
mov r10, [rsp + 496]; mov rax, [rsp + 312]; mov rcx, [rsp + 432]; add r10, -1; adc rax, rcx; mov r10, 0
adc r10, 0; mov [rsp + 504], rax; mov [rsp + 512], r10; mov rdx, [rsp + 440]; mov rcx, 18446744069414584321
mulx rcx, rax, rcx; mov [rsp + 520], rax; mov [rsp + 528], rcx; mov rdx, [rsp + 440]; mov rcx, 4294967295
mulx rcx, rax, rcx; mov [rsp + 536], rax; mov [rsp + 544], rcx; mov rdx, [rsp + 440]
mov rcx, 18446744073709551615; mulx rcx, rax, rcx; mov [rsp + 552], rax; mov [rsp + 560], rcx; mov r10, 0
mov rax, [rsp + 560]; mov rcx, [rsp + 536]; add r10, -1; adc rax, rcx; mov r10, 0; adc r10, 0
mov [rsp + 568], rax; mov [rsp + 576], r10; mov rax, [rsp + 576]; mov rcx, [rsp + 544]; add rax, rcx
mov [rsp + 584], rax; mov r10, 0; mov rax, [rsp + 440]; mov rcx, [rsp + 552]; add r10, -1; adc rax, rcx
mov r10, 0; adc r10, 0; mov [rsp + 592], r10; mov r10, [rsp + 592]; mov rax, [rsp + 456]; mov rcx, [rsp + 568]
add r10, -1; adc rax, rcx; mov r10, 0; adc r10, 0; mov [rsp + 600], rax; mov [rsp + 608], r10
mov r10, [rsp + 608]; mov rax, [rsp + 472]; mov rcx, [rsp + 584]; add r10, -1; adc rax, rcx; mov r10, 0
adc r10, 0; mov [rsp + 616], rax; mov [rsp + 624], r10; mov r10, [rsp + 624]; mov rax, [rsp + 488]
mov rcx, [rsp + 520]; add r10, -1; adc rax, rcx; mov r10, 0; adc r10, 0; mov [rsp + 632], rax
mov [rsp + 640], r10; mov r10, [rsp + 640]; mov rax, [rsp + 504]; mov rcx, [rsp + 528]; add r10, -1
adc rax, rcx; mov r10, 0; adc r10, 0; mov [rsp + 648], rax; mov [rsp + 656], r10; mov rax, [rsp + 656]
mov rcx, [rsp + 512]; add rax, rcx; mov [rsp + 664], rax; mov rdx, [rsp + 32]; mov rcx, [rsp + 16]
mov rcx, [rcx + 24]; mulx rcx, rax, rcx; mov [rsp + 672], rax; mov [rsp + 680], rcx; mov rdx, [rsp + 32]
mov rcx, [rsp + 16]; mov rcx, [rcx + 16]; mulx rcx, rax, rcx; mov [rsp + 688], rax; mov [rsp + 696], rcx
mov rdx, [rsp + 32]; mov rcx, [rsp + 16]; mov rcx, [rcx + 8]; mulx rcx, rax, rcx; mov [rsp + 704], rax
mov [rsp + 712], rcx; mov rdx, [rsp + 32]; mov rcx, [rsp + 16]; mov rcx, [rcx + 0]; mulx rcx, rax, rcx
mov [rsp + 720], rax; mov [rsp + 728], rcx; mov r10, 0; mov rax, [rsp + 728]; mov rcx, [rsp + 704]; add r10, -1
adc rax, rcx; mov r10, 0; adc r10, 0; mov [rsp + 736], rax; mov [rsp + 744], r10; mov r10, [rsp + 744]
mov rax, [rsp + 712]; mov rcx, [rsp + 688]; add r10, -1; adc rax, rcx; mov r10, 0; adc r10, 0
mov [rsp + 752], rax; mov [rsp + 760], r10; mov r10, [rsp + 760]; mov rax, [rsp + 696]; mov rcx, [rsp + 672]
add r10, -1; adc rax, rcx; mov r10, 0; adc r10, 0; mov [rsp + 768], rax; mov [rsp + 776], r10
mov rax, [rsp + 776]; mov rcx, [rsp + 680]; add rax, rcx; mov [rsp + 784], rax; mov r10, 0; mov rax, [rsp + 600]
mov rcx, [rsp + 720]; add r10, -1; adc rax, rcx; mov r10, 0; adc r10, 0; mov [rsp + 792], rax
mov [rsp + 800], r10; mov r10, [rsp + 800]; mov rax, [rsp + 616]; mov rcx, [rsp + 736]; add r10, -1
adc rax, rcx; mov r10, 0; adc r10, 0; mov [rsp + 808], rax; mov [rsp + 816], r10; mov r10, [rsp + 816]
mov rax, [rsp + 632]; mov rcx, [rsp + 752]; add r10, -1; adc rax, rcx; mov r10, 0; adc r10, 0
mov [rsp + 824], rax; mov [rsp + 832], r10; mov r10, [rsp + 832]; mov rax, [rsp + 648]; mov rcx, [rsp + 768]
add r10, -1; adc rax, rcx; mov r10, 0; adc r10, 0; mov [rsp + 840], rax; mov [rsp + 848], r10
mov r10, [rsp + 848]; mov rax, [rsp + 664]; mov rcx, [rsp + 784]; add r10, -1; adc rax, rcx; mov r10, 0
adc r10, 0; mov [rsp + 856], rax; mov [rsp + 864], r10; mov rdx, [rsp + 792]; mov rcx, 18446744069414584321
mulx rcx, rax, rcx; mov [rsp + 872], rax; mov [rsp + 880], rcx; mov rdx, [rsp + 792]; mov rcx, 4294967295
mulx rcx, rax, rcx; mov [rsp + 888], rax; mov [rsp + 896], rcx; mov rdx, [rsp + 792]
mov rcx, 18446744073709551615; mulx rcx, rax, rcx; mov [rsp + 904], rax; mov [rsp + 912], rcx; mov r10, 0
mov rax, [rsp + 912]; mov rcx, [rsp + 888]; add r10, -1; adc rax, rcx; mov r10, 0; adc r10, 0
mov [rsp + 920], rax; mov [rsp + 928], r10; mov rax, [rsp + 928]; mov rcx, [rsp + 896]; add rax, rcx
mov [rsp + 936], rax; mov r10, 0; mov rax, [rsp + 792]; mov rcx, [rsp + 904]; add r10, -1; adc rax, rcx
mov r10, 0; adc r10, 0; mov [rsp + 944], r10; mov r10, [rsp + 944]; mov rax, [rsp + 808]; mov rcx, [rsp + 920]
add r10, -1; adc rax, rcx; mov r10, 0; adc r10, 0; mov [rsp + 952], rax; mov [rsp + 960], r10
mov r10, [rsp + 960]; mov rax, [rsp + 824]; mov rcx, [rsp + 936]; add r10, -1; adc rax, rcx; mov r10, 0
adc r10, 0; mov [rsp + 968], rax; mov [rsp + 976], r10; mov r10, [rsp + 976]; mov rax, [rsp + 840]
mov rcx, [rsp + 872]; add r10, -1; adc rax, rcx; mov r10, 0; adc r10, 0; mov [rsp + 984], rax
mov [rsp + 992], r10; mov r10, [rsp + 992]; mov rax, [rsp + 856]; mov rcx, [rsp + 880]; add r10, -1
adc rax, rcx; mov r10, 0; adc r10, 0; mov [rsp + 1000], rax; mov [rsp + 1008], r10; mov rax, [rsp + 1008]
mov rcx, [rsp + 864]; add rax, rcx; mov [rsp + 1016], rax; mov rdx, [rsp + 40]; mov rcx, [rsp + 16]
mov rcx, [rcx + 24]; mulx rcx, rax, rcx; mov [rsp + 1024], rax; mov [rsp + 1032], rcx; mov rdx, [rsp + 40]
mov rcx, [rsp + 16]; mov rcx, [rcx + 16]; mulx rcx, rax, rcx; mov [rsp + 1040], rax; mov [rsp + 1048], rcx
mov rdx, [rsp + 40]; mov rcx, [rsp + 16]; mov rcx, [rcx + 8]; mulx rcx, rax, rcx; mov [rsp + 1056], rax
mov [rsp + 1064], rcx; mov rdx, [rsp + 40]; mov rcx, [rsp + 16]; mov rcx, [rcx + 0]; mulx rcx, rax, rcx
mov [rsp + 1072], rax; mov [rsp + 1080], rcx; mov r10, 0; mov rax, [rsp + 1080]; mov rcx, [rsp + 1056]
add r10, -1; adc rax, rcx; mov r10, 0; adc r10, 0; mov [rsp + 1088], rax; mov [rsp + 1096], r10
mov r10, [rsp + 1096]; mov rax, [rsp + 1064]; mov rcx, [rsp + 1040]; add r10, -1; adc rax, rcx; mov r10, 0
adc r10, 0; mov [rsp + 1104], rax; mov [rsp + 1112], r10; mov r10, [rsp + 1112]; mov rax, [rsp + 1048]
mov rcx, [rsp + 1024]; add r10, -1; adc rax, rcx; mov r10, 0; adc r10, 0; mov [rsp + 1120], rax
mov [rsp + 1128], r10; mov rax, [rsp + 1128]; mov rcx, [rsp + 1032]; add rax, rcx; mov [rsp + 1136], rax
mov r10, 0; mov rax, [rsp + 952]; mov rcx, [rsp + 1072]; add r10, -1; adc rax, rcx; mov r10, 0; adc r10, 0
mov [rsp + 1144], rax; mov [rsp + 1152], r10; mov r10, [rsp + 1152]; mov rax, [rsp + 968]; mov rcx, [rsp + 1088]
add r10, -1; adc rax, rcx; mov r10, 0; adc r10, 0; mov [rsp + 1160], rax; mov [rsp + 1168], r10
mov r10, [rsp + 1168]; mov rax, [rsp + 984]; mov rcx, [rsp + 1104]; add r10, -1; adc rax, rcx; mov r10, 0
adc r10, 0; mov [rsp + 1176], rax; mov [rsp + 1184], r10; mov r10, [rsp + 1184]; mov rax, [rsp + 1000]
mov rcx, [rsp + 1120]; add r10, -1; adc rax, rcx; mov r10, 0; adc r10, 0; mov [rsp + 1192], rax
mov [rsp + 1200], r10; mov r10, [rsp + 1200]; mov rax, [rsp + 1016]; mov rcx, [rsp + 1136]; add r10, -1
adc rax, rcx; mov r10, 0; adc r10, 0; mov [rsp + 1208], rax; mov [rsp + 1216], r10; mov rdx, [rsp + 1144]
mov rcx, 18446744069414584321; mulx rcx, rax, rcx; mov [rsp + 1224], rax; mov [rsp + 1232], rcx
mov rdx, [rsp + 1144]; mov rcx, 4294967295; mulx rcx, rax, rcx; mov [rsp + 1240], rax; mov [rsp + 1248], rcx
mov rdx, [rsp + 1144]; mov rcx, 18446744073709551615; mulx rcx, rax, rcx; mov [rsp + 1256], rax
mov [rsp + 1264], rcx; mov r10, 0; mov rax, [rsp + 1264]; mov rcx, [rsp + 1240]; add r10, -1; adc rax, rcx
mov r10, 0; adc r10, 0; mov [rsp + 1272], rax; mov [rsp + 1280], r10; mov rax, [rsp + 1280]
mov rcx, [rsp + 1248]; add rax, rcx; mov [rsp + 1288], rax; mov r10, 0; mov rax, [rsp + 1144]
mov rcx, [rsp + 1256]; add r10, -1; adc rax, rcx; mov r10, 0; adc r10, 0; mov [rsp + 1296], r10
mov r10, [rsp + 1296]; mov rax, [rsp + 1160]; mov rcx, [rsp + 1272]; add r10, -1; adc rax, rcx; mov r10, 0
adc r10, 0; mov [rsp + 1304], rax; mov [rsp + 1312], r10; mov r10, [rsp + 1312]; mov rax, [rsp + 1176]
mov rcx, [rsp + 1288]; add r10, -1; adc rax, rcx; mov r10, 0; adc r10, 0; mov [rsp + 1320], rax
mov [rsp + 1328], r10; mov r10, [rsp + 1328]; mov rax, [rsp + 1192]; mov rcx, [rsp + 1224]; add r10, -1
adc rax, rcx; mov r10, 0; adc r10, 0; mov [rsp + 1336], rax; mov [rsp + 1344], r10; mov r10, [rsp + 1344]
mov rax, [rsp + 1208]; mov rcx, [rsp + 1232]; add r10, -1; adc rax, rcx; mov r10, 0; adc r10, 0
mov [rsp + 1352], rax; mov [rsp + 1360], r10; mov rax, [rsp + 1360]; mov rcx, [rsp + 1216]; add rax, rcx
mov [rsp + 1368], rax; mov r10, 0; mov rax, [rsp + 1304]; mov rcx, 18446744073709551615; add r10, -1
sbb rax, rcx; mov r10, 0; adc r10, 0; mov [rsp + 1376], rax; mov [rsp + 1384], r10; mov r10, [rsp + 1384]
mov rax, [rsp + 1320]; mov rcx, 4294967295; add r10, -1; sbb rax, rcx; mov r10, 0; adc r10, 0
mov [rsp + 1392], rax; mov [rsp + 1400], r10; mov r10, [rsp + 1400]; mov rax, [rsp + 1336]; mov rcx, 0
add r10, -1; sbb rax, rcx; mov r10, 0; adc r10, 0; mov [rsp + 1408], rax; mov [rsp + 1416], r10
mov r10, [rsp + 1416]; mov rax, [rsp + 1352]; mov rcx, 18446744069414584321; add r10, -1; sbb rax, rcx
mov r10, 0; adc r10, 0; mov [rsp + 1424], rax; mov [rsp + 1432], r10; mov r10, [rsp + 1432]
mov rax, [rsp + 1368]; mov rcx, 0; add r10, -1; sbb rax, rcx; mov r10, 0; adc r10, 0; mov [rsp + 1440], r10
mov r10, [rsp + 1440]; mov rax, [rsp + 1376]; mov rcx, [rsp + 1304]; test r10, r10; cmovnz rax, rcx
mov [rsp + 1448], rax; mov r10, [rsp + 1440]; mov rax, [rsp + 1392]; mov rcx, [rsp + 1320]; test r10, r10
cmovnz rax, rcx; mov [rsp + 1456], rax; mov r10, [rsp + 1440]; mov rax, [rsp + 1408]; mov rcx, [rsp + 1336]
test r10, r10; cmovnz rax, rcx; mov [rsp + 1464], rax; mov r10, [rsp + 1440]; mov rax, [rsp + 1424]
mov rcx, [rsp + 1352]; test r10, r10; cmovnz rax, rcx; mov [rsp + 1472], rax; mov rax, [rsp + 1448]
mov r11, [rsp]; mov [r11 + 0], rax; mov rax, [rsp + 1456]; mov r11, [rsp]; mov [r11 + 8], rax
mov rax, [rsp + 1464]; mov r11, [rsp]; mov [r11 + 16], rax; mov rax, [rsp + 1472]; mov r11, [rsp]
mov [r11 + 24], rax; add rsp, 1480; ret";

// The program in JSON.
fn program(alloc: Global) -> Result<String, AllocError> {
    let mut text = String::from_str(
        alloc,
        r#"{"operation":"p256_mul","returns":[{"name":"out1","datatype":"u64[4]"}],
"arguments":[{"name":"arg1","datatype":"u64[4]"},{"name":"arg2","datatype":"u64[4]"}],"body":["#,
    )?;
    let (first, rest) = OPERATIONS.split_once("\n").unwrap_or((OPERATIONS, ""));
    let first = operation_of(alloc, first)?;
    text.push_str(first.as_str())?;
    for row in rest.lines() {
        let operation = operation_of(alloc, row)?;
        text.push_str(",")?;
        text.push_str(operation.as_str())?;
    }
    text.push_str("]}")?;
    Ok(text)
}

// The text of the listing's lines.
fn lines(alloc: Global) -> Result<String, AllocError> {
    Ok(LINES.replace(alloc, "; ", "\n")?)
}

// Whether a check on the tail, which is then cleared, ends with a proof.
fn is_proved_on(
    alloc: Global,
    prepared: &Prepared,
    tail: &mut Tail<'_>,
    listing: &Listing,
) -> Result<bool, AllocError>
    requires base { tail.now.base ≡ (source_made prepared.now).table }
    requires empty { tail.now.own ≡ [] }
    ensures base { tail.new.base ≡ tail.old.base }
    ensures empty { OnOk result (tail.new.own ≡ []) }
{
    let verdict = check_on(alloc, prepared, tail, listing)?;
    tail.clear();
    Ok(matches!(verdict, Verdict::Proved(_)))
}

// The first of so many checks, all on one tail, that does not end with a proof.
fn first_without_proof(
    alloc: Global,
    prepared: &Prepared,
    listing: &Listing,
    times: u32,
) -> Result<Option<u32>, AllocError> {
    let mut tail = Tail::new(alloc, prepared.base());
    for turn in 0..times {
        if !is_proved_on(alloc, prepared, &mut tail, listing)? {
            return Ok(Some(turn));
        }
    }
    Ok(None)
}

#[test]
fn the_product_of_p256_is_proved_a_thousand_times(rt: HostRuntime) -> Result<(), Fail> {
    let program = program(rt.alloc())?;
    let prepared = prepared_of(rt.alloc(), program.as_str())?.expect(&rt, "the text is a program");
    assert!(rt; prepared.program().ops().len() == 107);
    let lines = lines(rt.alloc())?;
    let listing = listing_of(rt.alloc(), lines.as_str())?.expect(&rt, "the lines are a listing");
    let verdict = check(rt.alloc(), &prepared, &listing)?;
    let text = verdict_text(rt.alloc(), verdict)?;
    assert!(rt; text.as_str() == "proved", "{}", text.as_str());
    assert!(rt; first_without_proof(rt.alloc(), &prepared, &listing, 1000)?.is_none());
    Ok(())
}
