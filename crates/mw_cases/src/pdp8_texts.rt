// The texts of examples/pdp8 but for the microprogram.
// tools/pdp8_texts.py writes this file; with --check it says whether it is due.

/// The board file.
pub const BOARD: &[u8] =
    br#"# A PDP-8 on twelve bits of Am2901, three slices, and one Am2910. The microprogram beside this file makes it one.
#
# Bits are numbered from the lowest, as everywhere in the bench. DEC numbers them from the top: bit 0 of a PDP-8 word
# is bit 11 here, and bit 11 is bit 0. docs/manual/pdp8.md has a picture of the board.

version = 1
width = 12
microword = 78
address = 12            # 4,096 words of memory
fill = "0"
unset = "0x1C00040"     # dst=1, nothing is written, and seq=14, go on: what a line leaves out does nothing

[fields]
src = [0, 3]            # Am2901: what R and S are
fun = [3, 3]            #   its function
dst = [6, 3]            #   where F goes, and what Y is
a = [9, 4]              #   the register that A reads
b = [13, 4]             #   the register that B reads and writes
cin = [17, 4]           # the carry into F, of select.carry_in
seq = [21, 4]           # Am2910: its instruction
br = [25, 12]           #   its branch address
off = [37, 1]           #   1: the test passes whatever its bit is
pol = [38, 1]           #   1: the test reads the opposite of its bit
cond = [39, 4]          #   the bit that the test reads, of select.condition
d = [43, 4]             # the direct data D, of select.d
ram = [47, 2]           # the bit that a shift takes in, of select.ram_link
mar = [49, 1]           # 1: the memory address register takes Y
ir = [50, 1]            # 1: the instruction register takes Y
mw = [51, 1]            # 1: memory takes Y, at the address before
out = [52, 1]           # 1: Y is put out
lit = [53, 12]          # a literal for D
link = [65, 2]          # what the flip-flops take: link
ena = [67, 2]           #   ion and pend, both by this field
halt = [69, 1]          #   halt
skip = [70, 3]          #   skip
t = [73, 2]             #   t
z = [75, 1]             #   z

# Four flip-flops that a program sees. The relation says what they are: L, ION, ION or DELAY, HALT.

[[flipflop]]
name = "link"           # L
control = "link"
load = ["hold", "xor_carry", "f_low", "f_high"]

[[flipflop]]
name = "ion"            # ION: interrupts are on
control = "ena"
load = ["hold", "ff:pend", "zero", "hold"]

[[flipflop]]
name = "pend"           # ION or DELAY: what ION becomes with the next instruction
control = "ena"
load = ["hold", "hold", "zero", "one"]

[[flipflop]]
name = "halt"           # HALT: ir:1 is HLT, bit 10 of DEC
control = "halt"
load = ["hold", "ir:1"]

# Three that only the microprogram uses, within an instruction.

[[flipflop]]
name = "skip"           # the instruction skips: END adds it to PC
control = "skip"
load = ["hold", "zero", "f_zero", "xor_carry", "sign"]

[[flipflop]]
name = "t"              # a bit that is kept for a later word: a request, AC's sign, an auto-index, a status bit
control = "t"
load = ["hold", "carry", "sign", "f_zero"]

[[flipflop]]
name = "z"              # AC is 0
control = "z"
load = ["hold", "f_zero"]

[control]
alu_source = "src"
alu_function = "fun"
alu_destination = "dst"
a_address = "a"
b_address = "b"
carry_in = "cin"
sequencer = "seq"
branch = "br"
test_disable = "off"
polarity = "pol"
condition = "cond"
d = "d"
link = "ram"
mar_load = "mar"
ir_load = "ir"
memory_write = "mw"
out = "out"

[select]

# What is added to F: 0 or 1, the interrupt line, a flip-flop, or a bit of an OPR, which so acts without a test.
carry_in = [
    "zero", "one", "line", "ff:skip", "ff:t",
    "ir:0", "ir:3", "ir:4", "ir:5", "ir:6", "ir:7",
]

# What a test reads: two flip-flops, whether F is 0, or a bit of the instruction.
condition = [
    "ff:halt", "ff:t", "f_zero",
    "ir:0", "ir:1", "ir:2", "ir:3", "ir:4", "ir:6",
]

# What a shift of a register takes in: nothing, L in a rotate with L, its own top bit in one without.
ram_link = ["zero", "ff:link", "f_high"]

# D: the buses, parts of the instruction, the literal, flip-flops as 0000 or 0001, and mar without its low three bits.
d = [
    "zero", "memory", "input", "mar",
    "ir&0o200", "ir&0o177", "ir&0o777", "ir&0o770", "ir&0o7",
    "field:lit", "ff:link", "ff:ion", "ff:t", "ff:z", "mar&0o7770",
]

# Four bits of the instruction lead to its words: the opcode, and the bit I.
[map]
low = 8
bits = 4
entries = [
    0x56, 0x66,     # 0 AND, AND I
    0x58, 0x68,     # 1 TAD, TAD I
    0x5A, 0x6A,     # 2 ISZ, ISZ I
    0x52, 0x62,     # 3 DCA, DCA I
    0x54, 0x64,     # 4 JMS, JMS I
    0x50, 0x60,     # 5 JMP, JMP I
    0x40, 0x40,     # 6 IOT
    0x10, 0x28,     # 7 OPR of group 1, of groups 2 and 3
]
"#;

/// The described machine.
pub const MACHINE: &[u8] =
    br#"; One instruction of a PDP-8/E: one field of 4,096 words, no EAE, and a profile of IOT that docs/manual/pdp8.md has.
; Bits are numbered from the lowest: IR[11] is bit 0 of DEC, and IR[0] is bit 11.

memory 12 12
register AC 12          ; accumulator
register PC 12          ; program counter, the address of the next instruction
register MQ 12          ; multiplier quotient
register L 1            ; link
register ION 1          ; interrupts are on
register DELAY 1        ; ION was done last: interrupts come on with the next instruction
register HALT 1         ; the machine has halted
temp IR 12              ; the instruction
temp EA 12              ; the effective address
temp WORD 12            ; a word of memory, of the switches or of a device, or MQ as it was
temp DATA 12            ; the second word of a device
temp SUM 13             ; L or a carry, and twelve bits
temp SKIP 1

step
if ~HALT                                                ; a halted machine does nothing

if ION & request                                        ; the interrupt: a JMS 0000, and interrupts are off
  mem[0#12] := PC
  PC := 1#12
  ION := 0#1
  DELAY := 0#1
else

; Fetch. The page is 0, or that of the instruction.
ION := ION | DELAY
DELAY := 0#1
IR := mem[PC]
EA := {IR[7] ? PC[11:7] : 0#5, IR[6:0]}
PC := PC + 1#12

if IR[11:9] < 6#3

; ---- Memory reference instructions. An indirect one finds its address in memory, counted up first in 0010 to 0017.
if IR[8]
  WORD := mem[EA] + zext(EA[11:3] == 1#9, 12)
  mem[EA] := WORD
  EA := WORD
end

if IR[11:9] == 0#3                                      ; 0 AND
  AC := AC & mem[EA]
else
if IR[11:9] == 1#3                                      ; 1 TAD
  SUM := {0#1, AC} + {0#1, mem[EA]}
  L := L ^ SUM[12]
  AC := SUM[11:0]
else
if IR[11:9] == 2#3                                      ; 2 ISZ
  WORD := mem[EA] + 1#12
  mem[EA] := WORD
  PC := PC + zext(WORD == 0#12, 12)
else
if IR[11:9] == 3#3                                      ; 3 DCA
  mem[EA] := AC
  AC := 0#12
else
if IR[11:9] == 4#3                                      ; 4 JMS
  mem[EA] := PC
  PC := EA + 1#12
else                                                    ; 5 JMP
  PC := EA
end
end
end
end
end

else
if IR[11:9] == 6#3

; ---- 6 IOT. Device 0 is the processor.
if IR[8:3] == 0#6
  if IR[2:0] == 1#3                                     ; 6001 ION
    DELAY := 1#1
  else
    if IR[2:0] == 2#3                                   ; 6002 IOF
      ION := 0#1
    end
  end
else                                                    ; another device: a status and a word come from it
  put {0#3, IR[8:0]}
  put AC
  take WORD
  take DATA
  AC := (WORD[10] ? 0#12 : AC) | DATA
  PC := PC + zext(WORD[11], 12)
end

else

; ---- 7 OPR.
if ~IR[8]                                               ; group 1
  AC := (IR[7] ? 0#12 : AC) ^ (IR[5] ? 0o7777#12 : 0#12)  ; CLA, CMA
  SUM := {0#1, AC} + zext(IR[0], 13)                    ; IAC
  L := (L & ~IR[6]) ^ IR[4] ^ SUM[12]                   ; CLL, CML, and the carry of IAC
  AC := SUM[11:0]
  if IR[3]
    if ~IR[2]
      if IR[1]
        SUM := {AC[1], AC[0], L, AC[11:2]}              ; RTR
      else
        SUM := {AC[0], L, AC[11:1]}                     ; RAR
      end
      L := SUM[12]
      AC := SUM[11:0]
    end                                                 ; RAR and RAL together: nothing
  else
    if IR[2]
      if IR[1]
        SUM := {AC[10], AC[9:0], L, AC[11]}             ; RTL
      else
        SUM := {AC[11], AC[10:0], L}                    ; RAL
      end
      L := SUM[12]
      AC := SUM[11:0]
    else
      if IR[1]
        AC := {AC[5:0], AC[11:6]}                       ; BSW
      end
    end
  end
else
if ~IR[0]                                               ; group 2
  SKIP := ((IR[6] & AC[11]) | (IR[5] & (AC == 0#12)) | (IR[4] & L)) ^ IR[3]  ; SMA, SZA, SNL, and the reverse
  PC := PC + zext(SKIP, 12)
  AC := IR[7] ? 0#12 : AC                               ; CLA
  HALT := IR[1]                                         ; HLT
  if IR[2]                                              ; OSR
    take WORD
    AC := AC | WORD
  end
else                                                    ; group 3
  AC := IR[7] ? 0#12 : AC                               ; CLA
  if IR[4]                                              ; MQL
    WORD := MQ
    MQ := AC
    AC := 0#12
    if IR[6]                                            ; and MQA: they change places
      AC := WORD
    end
  else
    if IR[6]                                            ; MQA
      AC := AC | MQ
    end
  end
end
end

end
end
end
end
"#;

/// The relation.
pub const RELATION: &[u8] =
    br#"; Where the board and the PDP-8 are compared: between instructions. The longest one, BSW, takes 21 cycles.
boundary FETCH 21
sp 0                            ; the sequencer's stack isn't used
b.upc = 1#12                    ; the word behind FETCH comes next: JZ to address 0 leaves 1
b.r14 = 0o10#12                 ; two registers hold constants
b.r15 = 0o7776#12
b.mar = m.PC                    ; the address of the next instruction, in mar
b.r1 = m.PC                     ; and in register 1
b.r0 = m.AC                     ; the accumulator
b.q = m.MQ                      ; the multiplier quotient, in the Am2901's Q
b.link = m.L                    ; the link
b.ion = m.ION                   ; whether interrupts are on
b.pend = m.ION | m.DELAY        ; what ION becomes with the next instruction
b.halt = m.HALT                 ; whether the machine has halted
end
"#;
