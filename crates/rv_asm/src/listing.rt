//! Instructions as an assembler's line spells them (RISC-V Assembly Programmer's Manual, "Assembly language syntax").

/// An instruction by its line, with its registers in capitals: `inst!(lw T1, 8(T0))` is `Inst::Lw { rd: T1, rs1: T0, imm: 8 }`. Where
/// it is written, `rv_isa` is one of the crate's dependencies. Branches and JAL have their offset in bytes.
#[macro_export]
macro_rules! inst {
    (add $rd:ident, $rs1:ident, $rs2:ident) => {
        $crate::inst!(@r Add $rd $rs1 $rs2)
    };
    (sub $rd:ident, $rs1:ident, $rs2:ident) => {
        $crate::inst!(@r Sub $rd $rs1 $rs2)
    };
    (sll $rd:ident, $rs1:ident, $rs2:ident) => {
        $crate::inst!(@r Sll $rd $rs1 $rs2)
    };
    (slt $rd:ident, $rs1:ident, $rs2:ident) => {
        $crate::inst!(@r Slt $rd $rs1 $rs2)
    };
    (sltu $rd:ident, $rs1:ident, $rs2:ident) => {
        $crate::inst!(@r Sltu $rd $rs1 $rs2)
    };
    (xor $rd:ident, $rs1:ident, $rs2:ident) => {
        $crate::inst!(@r Xor $rd $rs1 $rs2)
    };
    (srl $rd:ident, $rs1:ident, $rs2:ident) => {
        $crate::inst!(@r Srl $rd $rs1 $rs2)
    };
    (sra $rd:ident, $rs1:ident, $rs2:ident) => {
        $crate::inst!(@r Sra $rd $rs1 $rs2)
    };
    (or $rd:ident, $rs1:ident, $rs2:ident) => {
        $crate::inst!(@r Or $rd $rs1 $rs2)
    };
    (and $rd:ident, $rs1:ident, $rs2:ident) => {
        $crate::inst!(@r And $rd $rs1 $rs2)
    };
    (mul $rd:ident, $rs1:ident, $rs2:ident) => {
        $crate::inst!(@r Mul $rd $rs1 $rs2)
    };
    (div $rd:ident, $rs1:ident, $rs2:ident) => {
        $crate::inst!(@r Div $rd $rs1 $rs2)
    };
    (divu $rd:ident, $rs1:ident, $rs2:ident) => {
        $crate::inst!(@r Divu $rd $rs1 $rs2)
    };
    (rem $rd:ident, $rs1:ident, $rs2:ident) => {
        $crate::inst!(@r Rem $rd $rs1 $rs2)
    };
    (remu $rd:ident, $rs1:ident, $rs2:ident) => {
        $crate::inst!(@r Remu $rd $rs1 $rs2)
    };
    (addi $rd:ident, $rs1:ident, $imm:expr) => {
        $crate::inst!(@i Addi $rd $rs1 $imm)
    };
    (sltiu $rd:ident, $rs1:ident, $imm:expr) => {
        $crate::inst!(@i Sltiu $rd $rs1 $imm)
    };
    (xori $rd:ident, $rs1:ident, $imm:expr) => {
        $crate::inst!(@i Xori $rd $rs1 $imm)
    };
    (andi $rd:ident, $rs1:ident, $imm:expr) => {
        $crate::inst!(@i Andi $rd $rs1 $imm)
    };
    (slli $rd:ident, $rs1:ident, $imm:expr) => {
        $crate::inst!(@i Slli $rd $rs1 $imm)
    };
    (srli $rd:ident, $rs1:ident, $imm:expr) => {
        $crate::inst!(@i Srli $rd $rs1 $imm)
    };
    (srai $rd:ident, $rs1:ident, $imm:expr) => {
        $crate::inst!(@i Srai $rd $rs1 $imm)
    };
    (lw $rd:ident, $imm:literal($rs1:ident)) => {
        $crate::inst!(@i Lw $rd $rs1 $imm)
    };
    (lw $rd:ident, $imm:ident($rs1:ident)) => {
        $crate::inst!(@i Lw $rd $rs1 $imm)
    };
    (lbu $rd:ident, $imm:literal($rs1:ident)) => {
        $crate::inst!(@i Lbu $rd $rs1 $imm)
    };
    (lbu $rd:ident, $imm:ident($rs1:ident)) => {
        $crate::inst!(@i Lbu $rd $rs1 $imm)
    };
    (lhu $rd:ident, $imm:literal($rs1:ident)) => {
        $crate::inst!(@i Lhu $rd $rs1 $imm)
    };
    (lhu $rd:ident, $imm:ident($rs1:ident)) => {
        $crate::inst!(@i Lhu $rd $rs1 $imm)
    };
    (jalr $rd:ident, $imm:literal($rs1:ident)) => {
        $crate::inst!(@i Jalr $rd $rs1 $imm)
    };
    (jalr $rd:ident, $imm:ident($rs1:ident)) => {
        $crate::inst!(@i Jalr $rd $rs1 $imm)
    };
    (sw $rs2:ident, $imm:literal($rs1:ident)) => {
        $crate::inst!(@s Sw $rs1 $rs2 $imm)
    };
    (sw $rs2:ident, $imm:ident($rs1:ident)) => {
        $crate::inst!(@s Sw $rs1 $rs2 $imm)
    };
    (sb $rs2:ident, $imm:literal($rs1:ident)) => {
        $crate::inst!(@s Sb $rs1 $rs2 $imm)
    };
    (sb $rs2:ident, $imm:ident($rs1:ident)) => {
        $crate::inst!(@s Sb $rs1 $rs2 $imm)
    };
    (sh $rs2:ident, $imm:literal($rs1:ident)) => {
        $crate::inst!(@s Sh $rs1 $rs2 $imm)
    };
    (sh $rs2:ident, $imm:ident($rs1:ident)) => {
        $crate::inst!(@s Sh $rs1 $rs2 $imm)
    };
    (beq $rs1:ident, $rs2:ident, $imm:expr) => {
        $crate::inst!(@s Beq $rs1 $rs2 $imm)
    };
    (bne $rs1:ident, $rs2:ident, $imm:expr) => {
        $crate::inst!(@s Bne $rs1 $rs2 $imm)
    };
    (bltu $rs1:ident, $rs2:ident, $imm:expr) => {
        $crate::inst!(@s Bltu $rs1 $rs2 $imm)
    };
    (bgeu $rs1:ident, $rs2:ident, $imm:expr) => {
        $crate::inst!(@s Bgeu $rs1 $rs2 $imm)
    };
    (lui $rd:ident, $imm:expr) => {
        $crate::inst!(@u Lui $rd $imm)
    };
    (jal $rd:ident, $imm:expr) => {
        $crate::inst!(@u Jal $rd $imm)
    };
    (ecall) => {
        rv_isa::Inst::Ecall
    };
    (@r $op:ident $rd:ident $rs1:ident $rs2:ident) => {
        rv_isa::Inst::$op {
            rd: rv_isa::registers::$rd,
            rs1: rv_isa::registers::$rs1,
            rs2: rv_isa::registers::$rs2,
        }
    };
    (@i $op:ident $rd:ident $rs1:ident $imm:expr) => {
        rv_isa::Inst::$op {
            rd: rv_isa::registers::$rd,
            rs1: rv_isa::registers::$rs1,
            imm: $imm,
        }
    };
    (@s $op:ident $rs1:ident $rs2:ident $imm:expr) => {
        rv_isa::Inst::$op {
            rs1: rv_isa::registers::$rs1,
            rs2: rv_isa::registers::$rs2,
            imm: $imm,
        }
    };
    (@u $op:ident $rd:ident $imm:expr) => {
        rv_isa::Inst::$op {
            rd: rv_isa::registers::$rd,
            imm: $imm,
        }
    };
}
