// What a reader must believe about the adaptive set, with the theorems that hold of it: definitions in specs/, no code.
#![tactic(auto)]
