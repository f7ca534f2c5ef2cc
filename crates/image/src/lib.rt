// Packed planes and their pixels, bits and bytes: what contracts cite of layers as they stand in a stack, and laws about it. No code.

#![tactic(auto)]
