// Transfers of the console's devices, on which the definitions compute.
ghost use Rattle.std.specs.Prelude.{◌≡◌, [], ◌∷◌};
ghost use Rattle.mw_base.specs.declared.event.Event.TheVariants.{Out, Taken};
ghost use Rattle.mw_pal.specs.DeviceExamples.{one_key, printed, transfer, answers, leaves};

/// The keyboard: `ksf` skips where a key is left, `krs` reads it, `kcc` clears the accumulator and drops the key,
/// and `krb` does both.
fn keyboard()
    ensures ksf { answers one_key (transfer 0o31 0) ≡ 0o4000 ∷ 0 ∷ [] }
    ensures ksf_kept { leaves one_key (transfer 0o31 0) ≡ one_key }
    ensures ksf_none { answers (printed []) (transfer 0o31 0) ≡ 0 ∷ 0 ∷ [] }
    ensures krs { answers one_key (transfer 0o34 0) ≡ 0 ∷ 0x41 ∷ [] }
    ensures krs_kept { leaves one_key (transfer 0o34 0) ≡ one_key }
    ensures kcc { answers one_key (transfer 0o32 0) ≡ 0o2000 ∷ 0 ∷ [] }
    ensures kcc_dropped { leaves one_key (transfer 0o32 0) ≡ printed [] }
    ensures krb { answers one_key (transfer 0o36 0) ≡ 0o2000 ∷ 0x41 ∷ [] }
    ensures krb_dropped { leaves one_key (transfer 0o36 0) ≡ printed [] }
    ensures krb_none { answers (printed []) (transfer 0o36 0) ≡ 0o2000 ∷ 0 ∷ [] }
{}

/// The printer: `tsf` always skips, `tcf` does nothing, and `tpc` and `tls` print the low eight bits.
fn printer()
    ensures tsf { answers one_key (transfer 0o41 0) ≡ 0o4000 ∷ 0 ∷ [] }
    ensures tcf { leaves one_key (transfer 0o42 0) ≡ one_key }
    ensures tpc { leaves (printed []) (transfer 0o44 0x148) ≡ printed (0x48 ∷ []) }
    ensures tls { answers one_key (transfer 0o46 0x49) ≡ 0 ∷ 0 ∷ [] }
    ensures tls_printed { leaves (printed (0x48 ∷ [])) (transfer 0o46 0x49) ≡ printed (0x48 ∷ 0x49 ∷ []) }
{}

/// Another device, and a step that makes no transfer, get 0 and leave the console as it was.
fn no_device()
    ensures ion { answers one_key (transfer 0o01 0) ≡ 0 ∷ 0 ∷ [] }
    ensures ion_kept { leaves one_key (transfer 0o06 0) ≡ one_key }
    ensures osr { answers one_key (Taken 0 ∷ []) ≡ [] }
    ensures osr_kept { leaves one_key (Taken 0 ∷ []) ≡ one_key }
{}
