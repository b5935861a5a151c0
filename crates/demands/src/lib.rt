// What a haulier may rely on before a truck leaves: three demands over what the calls state of themselves. It has no code: the demands
// are in specs/, three theorems that they hold in proofs/.
#![tactic(auto)]
