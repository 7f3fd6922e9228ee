// A call that fills a lent row with all things of one kind that a figure has, its meshes or its parts, and answers how many they
// are: what that is, and laws for the code. No function.
#![tactic(auto)]
