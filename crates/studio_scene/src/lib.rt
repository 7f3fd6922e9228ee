// The children of 3D3D, each judged by itself: what the claims about their order and the rescue rest on. Definitions and
// laws, no function.
#![tactic(auto)]
