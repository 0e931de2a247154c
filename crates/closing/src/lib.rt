#![tactic(auto)]
// That the triangles close: laws of the numbers of points and triangles, of every mesh and every choice of levels. There is no code here.
