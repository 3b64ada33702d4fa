// No code: theorems over the definitions of `transcript`, in specs/.
#![tactic(auto)]
