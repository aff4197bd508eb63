// The microprogram of examples/pdp8, and the same with each fault.
// tools/pdp8_texts.py writes this file; with --check it says whether it is due.

// The text around the lines that faults change.
macro_rules! micro {
    (
        $line_1:literal,
        $line_2:literal,
        $line_3:literal,
        $line_4:literal,
        $line_5:literal,
        $line_6:literal,
        $line_7:literal,
        $line_8:literal,
        $line_9:literal,
        $line_10:literal,
        $line_11:literal,
        $line_12:literal
    ) => {
        concat!(
            r#"; A PDP-8 on twelve bits of Am2901 and one Am2910. docs/manual/pdp8.md has a picture of the board.
;
; Control addresses are in hexadecimal, what a PDP-8 program sees in octal. ir:N is bit N of the instruction from the
; lowest, which is bit 11 - N of DEC. A word that says nothing of the sequencer goes on to the next one.
;
; Between instructions, at FETCH, mar holds PC as register 1 does, and the flip-flop pend is ION or DELAY.

; ---- Names -------------------------------------------------------------------------------------------------------

; Registers. Q is MQ.
equ AC = 0
equ PC = 1
equ TEMP = 3
equ OTHER = 4
equ O10 = 14            ; always 0010
equ O7776 = 15          ; always 7776

; R and S of the Am2901.
def AQ = src=0
def AB = src=1
def ZQ = src=2
def ZB = src=3
def ZA = src=4
def DA = src=5
def DZ = src=7

; F of it.
def ADD = fun=0         ; R + S + carry
def SUBR = fun=1        ; S - R - 1 + carry
def SUBS = fun=2        ; R - S - 1 + carry
def OR = fun=3
def AND = fun=4
def EXOR = fun=6
def EXNOR = fun=7

; Where F goes. Without one it goes nowhere but to Y.
def QREG = dst=0        ; to Q
def RAMA = dst=2        ; to B, and Y is A
def RAMF = dst=3        ; to B
def RAMD = dst=5        ; to B, shifted down
def RAMU = dst=7        ; to B, shifted up

; D. Without one it is 0.
def MEMORY = d=1
def INPUT = d=2
def MAR = d=3
def PAGE_BIT = d=4      ; the instruction and 0200
def OFFSET = d=5        ; the instruction and 0177
def NINE = d=6          ; the instruction and 0777
def DEVICE = d=7        ; the instruction and 0770
def FUNCTION = d=8      ; the instruction and 0007
def LITERAL = d=9
def FROM_L = d=10       ; L, ION, t and z: 0000 or 0001
def FROM_ION = d=11
def FROM_T = d=12
def FROM_Z = d=13
def ROW = d=14          ; mar and 7770

; The carry into F. Without one it is 0.
def PLUS_1 = cin=1
def PLUS_LINE = cin=2
def PLUS_SKIP = cin=3
def PLUS_T = cin=4
def PLUS_IR0 = cin=5
def PLUS_IR3 = cin=6
def PLUS_IR4 = cin=7
def PLUS_IR5 = cin=8
def PLUS_IR6 = cin=9
def PLUS_IR7 = cin=10

; What is written at the end of the cycle. Memory is written where mar was, as mar may be loaded in the same cycle.
def TO_MAR = mar=1
def TO_IR = ir=1
def TO_MEMORY = mw=1
def PUT = out=1
def L_CARRY = link=1    ; L is turned over by a carry
def SKIP_NO = skip=1
def SKIP_ZERO = skip=2  ; skip where F is 0
def SKIP_CARRY = skip=3 ; skip is turned over by a carry
def SKIP_SIGN = skip=4
def T_CARRY = t=1
def T_SIGN = t=2
def T_ZERO = t=3
def Z_ZERO = z=1
def HALT_BIT = halt=1   ; HALT is ir:1
def ION_PEND = ena=1    ; ION becomes ION or DELAY, and DELAY 0
def ION_OFF = ena=2     ; ION and DELAY become 0
def ION_LATER = ena=3   ; DELAY becomes 1

; The next word: GO always to br, IF.. to br where the bit is 1, UNLESS.. where it is 0.
def GO = seq=3, off=1
def HOME = seq=0        ; to FETCH, which is 0
def JMAP = seq=2        ; to the address that the map has for the opcode and the bit I
def IF_HALT = seq=3, cond=0
def UNLESS_T = seq=3, cond=1, pol=1
def IF_ZERO = seq=3, cond=2
def IF_IR0 = seq=3, cond=3
def IF_IR1 = seq=3, cond=4
def UNLESS_IR1 = seq=3, cond=4, pol=1
def IF_IR2 = seq=3, cond=5
def IF_IR3 = seq=3, cond=6
def IF_IR4 = seq=3, cond=7
def IF_IR6 = seq=3, cond=8

; How a bit of the instruction acts without a test. 7777 + x is 0 and carries where the bit x is 1, and is 7777 and
; doesn't where it is 0: an AND with it clears by the bit, and its carry turns a flip-flop over by the bit. And
; 7776 + x + y is 0 and carries where both bits are 1.
def ONES = DZ, SUBR                                     ; 7777 + the carry into F
def BOTH = DA, a=O7776, ADD                             ; 7776 + D + the carry into F
def CLEAR_AC = AB, a=TEMP, b=AC, AND, RAMF              ; AC := AC and TEMP

; ---- Every instruction -------------------------------------------------------------------------------------------

; A halted machine stays. t is 1 where ION is and the line asks, in this cycle: no later word reads the line.
FETCH: FROM_ION, BOTH, PLUS_LINE, T_CARRY, IF_HALT, br=FETCH
; The instruction. Where t is 1 the next word is INT, and it isn't looked at.
MEMORY, DZ, OR, TO_IR, UNLESS_T, br=EA

; The interrupt, a JMS 0000: memory 0000 takes PC, PC becomes 0001, ION and DELAY 0.
"#,
            $line_1,
            r#"
"#,
            $line_2,
            r#"
LITERAL, lit=1, DZ, OR, RAMF, b=PC, TO_MAR, HOME        ; PC := 0001

; The effective address. Instructions without one make it too, and don't look at it.
EA: PAGE_BIT, DZ, SUBR, PLUS_1, RAMF, b=TEMP            ; TEMP := 0 - page bit: 7600, or 0000 for page zero
MAR, DA, a=TEMP, AND, RAMF, b=TEMP, ION_PEND, SKIP_NO   ; TEMP := PC and TEMP, the page
OFFSET, DA, a=TEMP, OR, TO_MAR, JMAP                    ; mar := the page and the offset

; The end of all instructions but JMS and JMP, which set PC themselves.
END: LITERAL, lit=1, DA, a=PC, ADD, PLUS_SKIP, RAMF, b=PC, TO_MAR, HOME  ; PC := PC + 1 + skip

; ---- Memory reference instructions -------------------------------------------------------------------------------

; NAME_D is the direct form, before which mar is the effective address. NAME_I is the indirect one: two words that put
; the word at mar in mar's place, and then those of NAME_D. Through 0010 to 0017 that word is first counted up in
; memory; every other one is written back as it is.
def AUTO = ROW, DA, a=O10, EXOR, T_ZERO                 ; t := mar is 0010 to 0017
def INDEX = MEMORY, DZ, ADD, PLUS_T, TO_MEMORY, TO_MAR, GO  ; memory at mar, and mar, := itself + t

; 0 AND: AC becomes AC and memory.
org 0x56
AND_D: MEMORY, DA, a=AC, AND, RAMF, b=AC, GO, br=END
org 0x66
AND_I: AUTO
INDEX, br=AND_D

; 1 TAD: AC becomes AC plus memory, and a carry turns L over.
org 0x58
"#,
            $line_3,
            r#"
org 0x68
TAD_I: AUTO
INDEX, br=TAD_D

; 2 ISZ: memory becomes memory plus 1, and the next instruction is skipped where that is 0.
org 0x5A
"#,
            $line_4,
            r#"
org 0x6A
ISZ_I: AUTO
INDEX, br=ISZ_D

; 3 DCA: memory takes AC, and AC becomes 0. Y is A here, which is AC before F, 0, goes to it.
org 0x52
"#,
            $line_5,
            r#"
org 0x62
DCA_I: AUTO
INDEX, br=DCA_D

; 4 JMS: memory takes the address of the next instruction, and PC becomes the effective address plus 1.
org 0x54
JMS_D: ZA, a=PC, ADD, PLUS_1, TO_MEMORY
"#,
            $line_6,
            r#"
org 0x64
JMS_I: AUTO
INDEX, br=JMS_D

; 5 JMP: PC becomes the effective address, which mar has already.
org 0x50
"#,
            $line_7,
            r#"
org 0x60
JMP_I: AUTO
INDEX, br=JMP_D

; ---- 6 IOT -------------------------------------------------------------------------------------------------------

; Device 0 is the processor itself. To another one go the instruction's low nine bits and AC, and from it come a
; status and a word. Bit 0 of the status, its highest, skips, and bit 1 clears AC before the word is ored into it.
org 0x40
IOT: DEVICE, DZ, OR, IF_ZERO, br=CPU
"#,
            $line_8,
            r#"
"#,
            $line_9,
            r#"
INPUT, DZ, OR, RAMU, b=TEMP, SKIP_SIGN                  ; the status: skip := bit 0, TEMP := it shifted up
ZA, a=TEMP, OR, T_SIGN                                  ; t := bit 1
ONES, PLUS_T, RAMF, b=TEMP
CLEAR_AC                                                ; AC := 0 where t is 1
INPUT, DA, a=AC, OR, RAMF, b=AC, GO, br=END             ; AC := AC or the word
; 6001 ION and 6002 IOF; the others of device 0 do nothing.
CPU: FUNCTION, DZ, SUBS, RAMF, b=TEMP, IF_ZERO, br=ION  ; TEMP := the function - 1
ZB, b=TEMP, SUBR, IF_ZERO, br=IOF                       ; TEMP - 1
GO, br=END
ION: ION_LATER, GO, br=END
IOF: ION_OFF, GO, br=END

; ---- 7 OPR -------------------------------------------------------------------------------------------------------

; Group 1. CLA and CLL, then CMA and CML, then IAC, then one of the rotates and BSW.
org 0x10
OPR1: FROM_L, BOTH, PLUS_IR6, L_CARRY                   ; CLL: a carry where L and the bit are 1, which turns L over
ONES, PLUS_IR7, RAMF, b=TEMP
CLEAR_AC                                                ; CLA
ONES, PLUS_IR5, RAMF, b=TEMP
AB, a=TEMP, b=AC, EXNOR, RAMF                           ; CMA: AC stays with 7777, and is turned over with 0
ONES, PLUS_IR4, L_CARRY                                 ; CML
ZB, b=AC, ADD, PLUS_IR0, RAMF, L_CARRY, IF_IR3, br=RAR  ; IAC
IF_IR2, br=RAL
IF_IR1, br=BSW
GO, br=END
; RAR, and RTR with ir:1. With RAL too nothing rotates.
def RIGHT = ZB, OR, RAMD, b=AC, ram=1, link=2           ; L comes in at the top, and takes what goes out
RAR: IF_IR2, br=END
RIGHT, UNLESS_IR1, br=END
RIGHT, GO, br=END
; RAL, and RTL with ir:1.
def LEFT = ZB, OR, RAMU, b=AC, ram=1, link=3            ; L comes in at the bottom, and takes what goes out
RAL: LEFT, UNLESS_IR1, br=END
LEFT, GO, br=END
; BSW: AC six places around, without L.
def AROUND = ZB, OR, RAMU, b=AC, ram=2
BSW: AROUND
AROUND
AROUND
AROUND
AROUND
AROUND, GO, br=END

; Group 2. The tests, of AC and L as they come, then CLA, then OSR; and HLT.
org 0x28
OPR2: ZA, a=AC, OR, T_SIGN, Z_ZERO, IF_IR0, br=OPR3
FROM_T, BOTH, PLUS_IR6, RAMF, b=TEMP                    ; SMA: 0 where AC is negative and the bit is 1
"#,
            $line_10,
            r#"
AB, a=OTHER, b=TEMP, AND, RAMF
FROM_L, BOTH, PLUS_IR4, RAMF, b=OTHER                   ; SNL: where L is 1
AB, a=OTHER, b=TEMP, AND, SKIP_ZERO                     ; skip where one of the three is 0
ONES, PLUS_IR3, SKIP_CARRY                              ; SPA, SNA, SZL: the opposite
"#,
            $line_11,
            r#"
CLEAR_AC, IF_IR2, br=OSR                                ; CLA
GO, br=END
"#,
            $line_12,
            r#"

; Group 3. CLA, then MQA, MQL or SWP.
OPR3: ONES, PLUS_IR7, RAMF, b=TEMP
CLEAR_AC, IF_IR4, br=MQL                                ; CLA
IF_IR6, br=MQA
GO, br=END
MQA: AQ, a=AC, OR, RAMF, b=AC, GO, br=END               ; AC := AC or MQ
MQL: ZQ, OR, RAMF, b=TEMP, IF_IR6, br=SWP               ; TEMP := MQ
ZA, a=AC, OR, QREG                                      ; MQ := AC
DZ, AND, RAMF, b=AC, GO, br=END                         ; AC := 0
SWP: ZA, a=AC, OR, QREG                                 ; MQ := AC
ZA, a=TEMP, OR, RAMF, b=AC, GO, br=END                  ; AC := TEMP
"#,
        )
    };
}

/// The microprogram.
pub const MICRO: &str = micro!(
    "INT: DZ, AND, TO_MAR, ION_OFF                           ; mar := 0000",
    "ZA, a=PC, ADD, TO_MEMORY",
    "TAD_D: MEMORY, DA, a=AC, ADD, RAMF, b=AC, L_CARRY, GO, br=END",
    "ISZ_D: MEMORY, DZ, ADD, PLUS_1, TO_MEMORY, SKIP_ZERO, GO, br=END",
    "DCA_D: DA, a=AC, AND, RAMA, b=AC, TO_MEMORY, GO, br=END",
    "MAR, DZ, ADD, PLUS_1, RAMF, b=PC, TO_MAR, HOME",
    "JMP_D: MAR, DZ, OR, RAMF, b=PC, HOME",
    "NINE, DZ, OR, PUT",
    "ZA, a=AC, OR, PUT",
    "FROM_Z, BOTH, PLUS_IR5, RAMF, b=OTHER                   ; SZA: where AC is 0",
    "ONES, PLUS_IR7, RAMF, b=TEMP, HALT_BIT                  ; HLT",
    "OSR: INPUT, DA, a=AC, OR, RAMF, b=AC, GO, br=END        ; AC := AC or the switches"
);

/// TAD leaves L.
pub const FAULT_1: &str = micro!(
    "INT: DZ, AND, TO_MAR, ION_OFF                           ; mar := 0000",
    "ZA, a=PC, ADD, TO_MEMORY",
    "TAD_D: MEMORY, DA, a=AC, ADD, RAMF, b=AC, GO, br=END",
    "ISZ_D: MEMORY, DZ, ADD, PLUS_1, TO_MEMORY, SKIP_ZERO, GO, br=END",
    "DCA_D: DA, a=AC, AND, RAMA, b=AC, TO_MEMORY, GO, br=END",
    "MAR, DZ, ADD, PLUS_1, RAMF, b=PC, TO_MAR, HOME",
    "JMP_D: MAR, DZ, OR, RAMF, b=PC, HOME",
    "NINE, DZ, OR, PUT",
    "ZA, a=AC, OR, PUT",
    "FROM_Z, BOTH, PLUS_IR5, RAMF, b=OTHER                   ; SZA: where AC is 0",
    "ONES, PLUS_IR7, RAMF, b=TEMP, HALT_BIT                  ; HLT",
    "OSR: INPUT, DA, a=AC, OR, RAMF, b=AC, GO, br=END        ; AC := AC or the switches"
);

/// DCA leaves AC.
pub const FAULT_2: &str = micro!(
    "INT: DZ, AND, TO_MAR, ION_OFF                           ; mar := 0000",
    "ZA, a=PC, ADD, TO_MEMORY",
    "TAD_D: MEMORY, DA, a=AC, ADD, RAMF, b=AC, L_CARRY, GO, br=END",
    "ISZ_D: MEMORY, DZ, ADD, PLUS_1, TO_MEMORY, SKIP_ZERO, GO, br=END",
    "DCA_D: DA, a=AC, OR, RAMA, b=AC, TO_MEMORY, GO, br=END",
    "MAR, DZ, ADD, PLUS_1, RAMF, b=PC, TO_MAR, HOME",
    "JMP_D: MAR, DZ, OR, RAMF, b=PC, HOME",
    "NINE, DZ, OR, PUT",
    "ZA, a=AC, OR, PUT",
    "FROM_Z, BOTH, PLUS_IR5, RAMF, b=OTHER                   ; SZA: where AC is 0",
    "ONES, PLUS_IR7, RAMF, b=TEMP, HALT_BIT                  ; HLT",
    "OSR: INPUT, DA, a=AC, OR, RAMF, b=AC, GO, br=END        ; AC := AC or the switches"
);

/// ISZ never skips.
pub const FAULT_3: &str = micro!(
    "INT: DZ, AND, TO_MAR, ION_OFF                           ; mar := 0000",
    "ZA, a=PC, ADD, TO_MEMORY",
    "TAD_D: MEMORY, DA, a=AC, ADD, RAMF, b=AC, L_CARRY, GO, br=END",
    "ISZ_D: MEMORY, DZ, ADD, PLUS_1, TO_MEMORY, GO, br=END",
    "DCA_D: DA, a=AC, AND, RAMA, b=AC, TO_MEMORY, GO, br=END",
    "MAR, DZ, ADD, PLUS_1, RAMF, b=PC, TO_MAR, HOME",
    "JMP_D: MAR, DZ, OR, RAMF, b=PC, HOME",
    "NINE, DZ, OR, PUT",
    "ZA, a=AC, OR, PUT",
    "FROM_Z, BOTH, PLUS_IR5, RAMF, b=OTHER                   ; SZA: where AC is 0",
    "ONES, PLUS_IR7, RAMF, b=TEMP, HALT_BIT                  ; HLT",
    "OSR: INPUT, DA, a=AC, OR, RAMF, b=AC, GO, br=END        ; AC := AC or the switches"
);

/// JMP leaves PC at the next word.
pub const FAULT_4: &str = micro!(
    "INT: DZ, AND, TO_MAR, ION_OFF                           ; mar := 0000",
    "ZA, a=PC, ADD, TO_MEMORY",
    "TAD_D: MEMORY, DA, a=AC, ADD, RAMF, b=AC, L_CARRY, GO, br=END",
    "ISZ_D: MEMORY, DZ, ADD, PLUS_1, TO_MEMORY, SKIP_ZERO, GO, br=END",
    "DCA_D: DA, a=AC, AND, RAMA, b=AC, TO_MEMORY, GO, br=END",
    "MAR, DZ, ADD, PLUS_1, RAMF, b=PC, TO_MAR, HOME",
    "JMP_D: GO, br=END",
    "NINE, DZ, OR, PUT",
    "ZA, a=AC, OR, PUT",
    "FROM_Z, BOTH, PLUS_IR5, RAMF, b=OTHER                   ; SZA: where AC is 0",
    "ONES, PLUS_IR7, RAMF, b=TEMP, HALT_BIT                  ; HLT",
    "OSR: INPUT, DA, a=AC, OR, RAMF, b=AC, GO, br=END        ; AC := AC or the switches"
);

/// JMS sets PC to the effective address.
pub const FAULT_5: &str = micro!(
    "INT: DZ, AND, TO_MAR, ION_OFF                           ; mar := 0000",
    "ZA, a=PC, ADD, TO_MEMORY",
    "TAD_D: MEMORY, DA, a=AC, ADD, RAMF, b=AC, L_CARRY, GO, br=END",
    "ISZ_D: MEMORY, DZ, ADD, PLUS_1, TO_MEMORY, SKIP_ZERO, GO, br=END",
    "DCA_D: DA, a=AC, AND, RAMA, b=AC, TO_MEMORY, GO, br=END",
    "MAR, DZ, ADD, RAMF, b=PC, TO_MAR, HOME",
    "JMP_D: MAR, DZ, OR, RAMF, b=PC, HOME",
    "NINE, DZ, OR, PUT",
    "ZA, a=AC, OR, PUT",
    "FROM_Z, BOTH, PLUS_IR5, RAMF, b=OTHER                   ; SZA: where AC is 0",
    "ONES, PLUS_IR7, RAMF, b=TEMP, HALT_BIT                  ; HLT",
    "OSR: INPUT, DA, a=AC, OR, RAMF, b=AC, GO, br=END        ; AC := AC or the switches"
);

/// The test of SZA never holds.
pub const FAULT_6: &str = micro!(
    "INT: DZ, AND, TO_MAR, ION_OFF                           ; mar := 0000",
    "ZA, a=PC, ADD, TO_MEMORY",
    "TAD_D: MEMORY, DA, a=AC, ADD, RAMF, b=AC, L_CARRY, GO, br=END",
    "ISZ_D: MEMORY, DZ, ADD, PLUS_1, TO_MEMORY, SKIP_ZERO, GO, br=END",
    "DCA_D: DA, a=AC, AND, RAMA, b=AC, TO_MEMORY, GO, br=END",
    "MAR, DZ, ADD, PLUS_1, RAMF, b=PC, TO_MAR, HOME",
    "JMP_D: MAR, DZ, OR, RAMF, b=PC, HOME",
    "NINE, DZ, OR, PUT",
    "ZA, a=AC, OR, PUT",
    "FROM_Z, BOTH, RAMF, b=OTHER                             ; SZA: where AC is 0",
    "ONES, PLUS_IR7, RAMF, b=TEMP, HALT_BIT                  ; HLT",
    "OSR: INPUT, DA, a=AC, OR, RAMF, b=AC, GO, br=END        ; AC := AC or the switches"
);

/// HLT leaves HALT.
pub const FAULT_7: &str = micro!(
    "INT: DZ, AND, TO_MAR, ION_OFF                           ; mar := 0000",
    "ZA, a=PC, ADD, TO_MEMORY",
    "TAD_D: MEMORY, DA, a=AC, ADD, RAMF, b=AC, L_CARRY, GO, br=END",
    "ISZ_D: MEMORY, DZ, ADD, PLUS_1, TO_MEMORY, SKIP_ZERO, GO, br=END",
    "DCA_D: DA, a=AC, AND, RAMA, b=AC, TO_MEMORY, GO, br=END",
    "MAR, DZ, ADD, PLUS_1, RAMF, b=PC, TO_MAR, HOME",
    "JMP_D: MAR, DZ, OR, RAMF, b=PC, HOME",
    "NINE, DZ, OR, PUT",
    "ZA, a=AC, OR, PUT",
    "FROM_Z, BOTH, PLUS_IR5, RAMF, b=OTHER                   ; SZA: where AC is 0",
    "ONES, PLUS_IR7, RAMF, b=TEMP                            ; HLT",
    "OSR: INPUT, DA, a=AC, OR, RAMF, b=AC, GO, br=END        ; AC := AC or the switches"
);

/// An IOT puts out AC before the nine bits.
pub const FAULT_8: &str = micro!(
    "INT: DZ, AND, TO_MAR, ION_OFF                           ; mar := 0000",
    "ZA, a=PC, ADD, TO_MEMORY",
    "TAD_D: MEMORY, DA, a=AC, ADD, RAMF, b=AC, L_CARRY, GO, br=END",
    "ISZ_D: MEMORY, DZ, ADD, PLUS_1, TO_MEMORY, SKIP_ZERO, GO, br=END",
    "DCA_D: DA, a=AC, AND, RAMA, b=AC, TO_MEMORY, GO, br=END",
    "MAR, DZ, ADD, PLUS_1, RAMF, b=PC, TO_MAR, HOME",
    "JMP_D: MAR, DZ, OR, RAMF, b=PC, HOME",
    "ZA, a=AC, OR, PUT",
    "NINE, DZ, OR, PUT",
    "FROM_Z, BOTH, PLUS_IR5, RAMF, b=OTHER                   ; SZA: where AC is 0",
    "ONES, PLUS_IR7, RAMF, b=TEMP, HALT_BIT                  ; HLT",
    "OSR: INPUT, DA, a=AC, OR, RAMF, b=AC, GO, br=END        ; AC := AC or the switches"
);

/// OSR takes no word.
pub const FAULT_9: &str = micro!(
    "INT: DZ, AND, TO_MAR, ION_OFF                           ; mar := 0000",
    "ZA, a=PC, ADD, TO_MEMORY",
    "TAD_D: MEMORY, DA, a=AC, ADD, RAMF, b=AC, L_CARRY, GO, br=END",
    "ISZ_D: MEMORY, DZ, ADD, PLUS_1, TO_MEMORY, SKIP_ZERO, GO, br=END",
    "DCA_D: DA, a=AC, AND, RAMA, b=AC, TO_MEMORY, GO, br=END",
    "MAR, DZ, ADD, PLUS_1, RAMF, b=PC, TO_MAR, HOME",
    "JMP_D: MAR, DZ, OR, RAMF, b=PC, HOME",
    "NINE, DZ, OR, PUT",
    "ZA, a=AC, OR, PUT",
    "FROM_Z, BOTH, PLUS_IR5, RAMF, b=OTHER                   ; SZA: where AC is 0",
    "ONES, PLUS_IR7, RAMF, b=TEMP, HALT_BIT                  ; HLT",
    "OSR: DA, a=AC, OR, RAMF, b=AC, GO, br=END               ; AC := AC or the switches"
);

/// The interrupt leaves ION.
pub const FAULT_10: &str = micro!(
    "INT: DZ, AND, TO_MAR                                    ; mar := 0000",
    "ZA, a=PC, ADD, TO_MEMORY",
    "TAD_D: MEMORY, DA, a=AC, ADD, RAMF, b=AC, L_CARRY, GO, br=END",
    "ISZ_D: MEMORY, DZ, ADD, PLUS_1, TO_MEMORY, SKIP_ZERO, GO, br=END",
    "DCA_D: DA, a=AC, AND, RAMA, b=AC, TO_MEMORY, GO, br=END",
    "MAR, DZ, ADD, PLUS_1, RAMF, b=PC, TO_MAR, HOME",
    "JMP_D: MAR, DZ, OR, RAMF, b=PC, HOME",
    "NINE, DZ, OR, PUT",
    "ZA, a=AC, OR, PUT",
    "FROM_Z, BOTH, PLUS_IR5, RAMF, b=OTHER                   ; SZA: where AC is 0",
    "ONES, PLUS_IR7, RAMF, b=TEMP, HALT_BIT                  ; HLT",
    "OSR: INPUT, DA, a=AC, OR, RAMF, b=AC, GO, br=END        ; AC := AC or the switches"
);

/// The interrupt stores PC plus 1.
pub const FAULT_11: &str = micro!(
    "INT: DZ, AND, TO_MAR, ION_OFF                           ; mar := 0000",
    "ZA, a=PC, ADD, PLUS_1, TO_MEMORY",
    "TAD_D: MEMORY, DA, a=AC, ADD, RAMF, b=AC, L_CARRY, GO, br=END",
    "ISZ_D: MEMORY, DZ, ADD, PLUS_1, TO_MEMORY, SKIP_ZERO, GO, br=END",
    "DCA_D: DA, a=AC, AND, RAMA, b=AC, TO_MEMORY, GO, br=END",
    "MAR, DZ, ADD, PLUS_1, RAMF, b=PC, TO_MAR, HOME",
    "JMP_D: MAR, DZ, OR, RAMF, b=PC, HOME",
    "NINE, DZ, OR, PUT",
    "ZA, a=AC, OR, PUT",
    "FROM_Z, BOTH, PLUS_IR5, RAMF, b=OTHER                   ; SZA: where AC is 0",
    "ONES, PLUS_IR7, RAMF, b=TEMP, HALT_BIT                  ; HLT",
    "OSR: INPUT, DA, a=AC, OR, RAMF, b=AC, GO, br=END        ; AC := AC or the switches"
);

/// The last word of DCA jumps to itself.
pub const FAULT_12: &str = micro!(
    "INT: DZ, AND, TO_MAR, ION_OFF                           ; mar := 0000",
    "ZA, a=PC, ADD, TO_MEMORY",
    "TAD_D: MEMORY, DA, a=AC, ADD, RAMF, b=AC, L_CARRY, GO, br=END",
    "ISZ_D: MEMORY, DZ, ADD, PLUS_1, TO_MEMORY, SKIP_ZERO, GO, br=END",
    "DCA_D: DA, a=AC, AND, RAMA, b=AC, TO_MEMORY, GO, br=DCA_D",
    "MAR, DZ, ADD, PLUS_1, RAMF, b=PC, TO_MAR, HOME",
    "JMP_D: MAR, DZ, OR, RAMF, b=PC, HOME",
    "NINE, DZ, OR, PUT",
    "ZA, a=AC, OR, PUT",
    "FROM_Z, BOTH, PLUS_IR5, RAMF, b=OTHER                   ; SZA: where AC is 0",
    "ONES, PLUS_IR7, RAMF, b=TEMP, HALT_BIT                  ; HLT",
    "OSR: INPUT, DA, a=AC, OR, RAMF, b=AC, GO, br=END        ; AC := AC or the switches"
);
