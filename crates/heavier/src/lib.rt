// A heavier box in the same stack (document 02, P14): a theorem over two sheets and their answers. What it says is in specs/, its proof in
// proofs/; it has no functions.

#![tactic(auto)]
