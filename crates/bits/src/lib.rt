// Bits of bytes, and what is known of bytes where each bit is known on its own: definitions and lemmas, and no code.
// The kind `Marks` is built on them, and needs their laws at every set of bytes.
#![tactic(auto)]
