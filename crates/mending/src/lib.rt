// Mending damaged logs (document 02, 12/12): definitions and laws alone. The code is in `mender`.
#![tactic(auto)]
