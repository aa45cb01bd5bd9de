// The word that a call answers: a number in the low 16 bits, then one bit each for what else there is to say, then how often the
// interrupt is to be raised. Bits from 0x200_0000 to 0x800_0000 are spare. It is one number, and no enum, since the interface for C
// hands it on as it is.

// Full, too many bytes, an invalid access of the clock.
pub const REFUSED: u32 = 0x1_0000;

// The low eight bits are a byte to send.
pub const SENT: u32 = 0x2_0000;

// A run from a fresh device can have come to what was restored.
pub const REACHABLE: u32 = 0x4_0000;

// RBR was read.
pub const DATA_READ: u32 = 0x8_0000;

// A byte left with the reply.
pub const DELIVERED: u32 = 0x10_0000;

// RBR was read, and no byte waits.
pub const NONE_LEFT: u32 = 0x20_0000;

// In the loop: the byte written waits.
pub const LOOPED: u32 = 0x40_0000;

// In the loop: there was no room for it.
pub const DROPPED: u32 = 0x80_0000;

// FCR emptied the receiver: as many waiting bytes as the number says were thrown away.
pub const FLUSHED: u32 = 0x100_0000;

// For each interrupt to raise.
pub const ONE_RAISE: u32 = 0x1000_0000;
