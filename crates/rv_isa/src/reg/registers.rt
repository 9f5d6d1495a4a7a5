//! The registers by their names in the standard calling convention (RISC-V ABIs Specification, "Integer Register
//! Convention").

use super::Reg;

/// Always zero.
pub const ZERO: Reg = Reg { number: 0 };
/// The return address.
pub const RA: Reg = Reg { number: 1 };
/// The stack pointer.
pub const SP: Reg = Reg { number: 2 };
/// The global pointer.
pub const GP: Reg = Reg { number: 3 };
/// The thread pointer.
pub const TP: Reg = Reg { number: 4 };
/// Temporaries, which a call need not keep: T0 to T6.
pub const T0: Reg = Reg { number: 5 };

pub const T1: Reg = Reg { number: 6 };

pub const T2: Reg = Reg { number: 7 };
/// Saved registers, which a call keeps: S0 to S11.
pub const S0: Reg = Reg { number: 8 };

pub const S1: Reg = Reg { number: 9 };
/// Arguments, A0 to A7; results stand in A0 and A1.
pub const A0: Reg = Reg { number: 10 };

pub const A1: Reg = Reg { number: 11 };

pub const A2: Reg = Reg { number: 12 };

pub const A3: Reg = Reg { number: 13 };

pub const A4: Reg = Reg { number: 14 };

pub const A5: Reg = Reg { number: 15 };

pub const A6: Reg = Reg { number: 16 };

pub const A7: Reg = Reg { number: 17 };

pub const S2: Reg = Reg { number: 18 };

pub const S3: Reg = Reg { number: 19 };

pub const S4: Reg = Reg { number: 20 };

pub const S5: Reg = Reg { number: 21 };

pub const S6: Reg = Reg { number: 22 };

pub const S7: Reg = Reg { number: 23 };

pub const S8: Reg = Reg { number: 24 };

pub const S9: Reg = Reg { number: 25 };

pub const S10: Reg = Reg { number: 26 };

pub const S11: Reg = Reg { number: 27 };

pub const T3: Reg = Reg { number: 28 };

pub const T4: Reg = Reg { number: 29 };

pub const T5: Reg = Reg { number: 30 };

pub const T6: Reg = Reg { number: 31 };
