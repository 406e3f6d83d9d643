ghost use Rattle.std.specs.Prelude.{◌≡◌, [], ◌∷◌, pos};
ghost use Rattle.semantics.specs.Multiset.{◌≈◌};
ghost use Rattle.semantics.specs.Examples.{one_field, two_fields, in_a_alone, in_a_and_b, small_and_all};
ghost use Rattle.semantics.specs.Time.{at_epoch};
ghost use Rattle.machine.specs.World.{Message, opening};
ghost use Rattle.machine.specs.Frontier.{Passed};
ghost use Rattle.machine.specs.Step.{Step, Allowed};
ghost use Rattle.machine.specs.Headline.{IsRunOf, meant, output_of};
ghost use Rattle.machine.specs.WorkedRuns.{after_steps, message_on, copying, copier, one_fed, one_record, one_record_sealed, one_abandoned};
ghost use Rattle.machine.specs.WorkedRuns.{counting, counter, three_fed, two_fed, two_merged, fed_in_two_epochs, to_worker_0, to_worker_1};
ghost use Rattle.machine.specs.WorkedRuns.{both_absorbed, the_request, absorbed_and_sealed, first_notified, first_committed};
ghost use Rattle.machine.specs.WorkedRuns.{differ, a_sealed, except_request, a_and_b_sealed, one_on, difference_committed};
ghost use Rattle.machine.specs.WorkedRuns.{meeter, one_in_a, one_in_both, splitter, second_first};

/// `input a/1; output a;` on one worker. The record 5 is fed; nothing is emitted yet, so what was emitted is not all that the query means. The
/// message is claimed and committed, and so the record is emitted. The epoch has not passed then, since the input is open; it has once the input is
/// sealed.
pub fn law_one_record()
    ensures run_fed { IsRunOf copying 1 one_fed (after_steps copier opening one_fed) }
    ensures less { (after_steps copier opening one_fed).emitted (output_of copying 0) 0
        ≈ meant copying (after_steps copier opening one_fed) 0 0 → ⊥ }
    ensures run { IsRunOf copying 1 one_record (after_steps copier opening one_record) }
    ensures emitted { (after_steps copier opening one_record).emitted (output_of copying 0) 0 ≡ one_field (pos 5) ∷ [] }
    ensures is_open { Passed copier (after_steps copier opening one_record) (output_of copying 0) 0 → ⊥ }
    ensures run_sealed { IsRunOf copying 1 one_record_sealed (after_steps copier opening one_record_sealed) }
    ensures passed { Passed copier (after_steps copier opening one_record_sealed) (output_of copying 0) 0 }
{}

/// An abandoned event keeps its epoch open, even if every input is closed and no message or request is left.
pub fn law_one_abandoned()
    ensures run { IsRunOf copying 1 one_abandoned (after_steps copier opening one_abandoned) }
    ensures is_open { Passed copier (after_steps copier opening one_abandoned) (output_of copying 0) 0 → ⊥ }
{}

/// Three records that are fed at once to a group on two workers make one message for each worker, with the records of its keys.
pub fn law_batch()
    ensures to_0 { (after_steps counter opening three_fed).mail 0 ≡ to_worker_0 ∷ [] }
    ensures to_1 { (after_steps counter opening three_fed).mail 1 ≡ to_worker_1 ∷ [] }
{}

/// Two records with keys of worker 0 that are fed to the group in one epoch, one after the other, make two messages. Once these are merged, claimed
/// and committed, they are absorbed as one list. Messages of two epochs aren't merged.
pub fn law_merge()
    ensures two { (after_steps counter opening two_fed).mail 0
        ≡ message_on 0 (one_field (pos 1) ∷ []) ∷ message_on 0 (one_field (pos 3) ∷ []) ∷ [] }
    ensures run { IsRunOf counting 2 two_merged (after_steps counter opening two_merged) }
    ensures absorbed { (after_steps counter opening two_merged).absorbed 0 1 0 (at_epoch 0) ≡ one_field (pos 1) ∷ one_field (pos 3) ∷ [] }
    ensures none_left { (after_steps counter opening two_merged).mail 0 ≡ [] }
    ensures other_epoch { (second : Message) → Allowed counter (after_steps counter opening fed_in_two_epochs)
        (Step.merge 0 0 (message_on 0 (one_field (pos 1) ∷ [])) second) → ⊥ }
{}

/// `input a/1; output group(a; #0; count);` on two workers. Each worker asks once for a notification, which is held back while the input is open at
/// the epoch. Once the input is sealed it may be delivered, although the other worker's request for the same pointstamp is still waiting; and so may
/// that one, while the first is held. The notification sends one record for each key, with its count.
pub fn law_notification()
    ensures asked_by_0 { (after_steps counter opening both_absorbed).requests 0 ≡ the_request ∷ [] }
    ensures asked_by_1 { (after_steps counter opening both_absorbed).requests 1 ≡ the_request ∷ [] }
    ensures held_back { Allowed counter (after_steps counter opening both_absorbed) (Step.claim_request 0 0 the_request) → ⊥ }
    ensures delivered { Allowed counter (after_steps counter opening absorbed_and_sealed) (Step.claim_request 0 0 the_request) }
    ensures twin { Allowed counter (after_steps counter opening first_notified) (Step.claim_request 1 0 the_request) }
    ensures run { IsRunOf counting 2 first_committed (after_steps counter opening first_committed) }
    ensures counts { (after_steps counter opening first_committed).mail 0
        ≡ message_on 1 (two_fields 1 1 ∷ two_fields 3 1 ∷ []) ∷ [] }
{}

/// `input a/1; input b/1; output except(a, b);` on one worker. The record 1 of `a` is absorbed, and nothing is sent. The except has asked for a
/// notification, which is held back while `b` is open, even after `a` is sealed, since `b` may still take the record away. Once `b` is sealed it is
/// delivered, and sends the record.
pub fn law_difference()
    ensures asked { (after_steps differ opening a_sealed).requests 0 ≡ except_request ∷ [] }
    ensures none_sent { (after_steps differ opening a_sealed).mail 0 ≡ [] }
    ensures held_back { Allowed differ (after_steps differ opening a_sealed) (Step.claim_request 0 0 except_request) → ⊥ }
    ensures delivered { Allowed differ (after_steps differ opening a_and_b_sealed) (Step.claim_request 0 0 except_request) }
    ensures run { IsRunOf in_a_alone 1 difference_committed (after_steps differ opening difference_committed) }
    ensures sent { (after_steps differ opening difference_committed).mail 0 ≡ one_on 2 ∷ [] }
{}

/// `input a/1; input b/1; output intersect(a, b);` on one worker. The record 1 of `a` sends nothing by itself; with that of `b` it is sent and
/// emitted, while the epoch is still open.
pub fn law_common()
    ensures none_sent { (after_steps meeter opening one_in_a).mail 0 ≡ [] }
    ensures run { IsRunOf in_a_and_b 1 one_in_both (after_steps meeter opening one_in_both) }
    ensures emitted { (after_steps meeter opening one_in_both).emitted (output_of in_a_and_b 0) 0 ≡ one_field (pos 1) ∷ [] }
    ensures is_open { Passed meeter (after_steps meeter opening one_in_both) (output_of in_a_and_b 0) 0 → ⊥ }
{}

/// `input a/1; output x = where(a; #0 < 5); output y = a;` on one worker. The record 3 is fed and the input sealed. Once the message to the second
/// output is committed, the record is emitted there and the epoch has passed there, while at the first output nothing is emitted and the epoch is
/// open.
pub fn law_two_outputs()
    ensures run { IsRunOf small_and_all 1 second_first (after_steps splitter opening second_first) }
    ensures emitted { (after_steps splitter opening second_first).emitted (output_of small_and_all 1) 0 ≡ one_field (pos 3) ∷ [] }
    ensures passed { Passed splitter (after_steps splitter opening second_first) (output_of small_and_all 1) 0 }
    ensures none_emitted { (after_steps splitter opening second_first).emitted (output_of small_and_all 0) 0 ≡ [] }
    ensures is_open { Passed splitter (after_steps splitter opening second_first) (output_of small_and_all 0) 0 → ⊥ }
{}
