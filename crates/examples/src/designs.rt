//! The worked designs, as words.

/// Two nodes: `v0 <- z^-1 v0 + z^-0 v1`, `v1 <- z^-0 x`, and `y = z^-0 v0`.
pub const DESIGN_E: [u32; 8] = [
    0x10000002, 0x20000000, 0x30000040, 0x30000001, 0x20000021, 0x30000020, 0x40000000, 0x50000008,
];

/// Four nodes, of operations 0 to 3. Node i hears node i + 1 at delay 0, if there is one, and the input at delay 3 - i.
pub const FIR: [u32; 14] = [
    0x10000004, 0x20000000, 0x30000001, 0x300000E0, 0x20000021, 0x30000002, 0x300000A0, 0x20000042,
    0x30000003, 0x30000060, 0x20000063, 0x30000020, 0x40000000, 0x5000000E,
];
