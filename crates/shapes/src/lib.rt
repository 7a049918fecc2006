// R-10: every legal control chain as a word of letters: the list, and the theorems about it. `shape_text` writes it. There is no code here.
#![tactic(auto)]
