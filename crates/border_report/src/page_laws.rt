// L14: what a run of files leaves on the page. Crate paper states it, proofs/ has the theorems. There is no code.
