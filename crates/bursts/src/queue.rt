// A queue of some kind, as a burst calls it.
ghost use Rattle.std.specs.Prelude.{◌≡◌, ℕ, suc, ◌+◌, ◌*◌, ◌≤◌, length};
ghost use Rattle.bursts.specs.Burst.{burst, call, done, word_to};
ghost use Rattle.bursts.specs.Kind.{BurstKind};

// What is lent to a burst, and how each of its calls is answered.
pub trait Queue {
    ghost kind: { BurstKind };

    // the state that what is lent holds
    ghost state: { Self → kind.kind.State };

    // it can be asked so many calls more
    ghost ready: { Self → ℕ → Type 0 };

    // the names of the references that it holds
    ghost Names: { Type 0 };

    ghost names: { Self → Names };

    // Answers the i-th call.
    fn answer(&mut self, calls: &[u32], i: usize) -> u64
        requires ready { (n : ℕ) × ready self.old (suc n) }
        requires within { kind.numbers * i + kind.numbers ≤ length calls.now }
        ensures value { result ≡ word_to kind (state self.old) (call kind calls.now i) }
        ensures after { state self.new ≡ kind.kind.next (state self.old) (call kind calls.now i) }
        ensures ready_after { (n : ℕ) → ready self.old (suc n) → ready self.new n }
        ensures names { names self.new ≡ names self.old };
}

// Answers every call of a burst, in turn.
pub fn answer_each<Q: Queue>(queue: &mut Q, calls: &[u32], answers: &mut [u64])
    requires ready { Q.ready queue.old (length answers.old) }
    requires calls_len { length calls.now ≡ Q.kind.numbers * length answers.old }
    ensures answers_after { done Q.kind (Q.state queue.new) answers.new
        ≡ burst Q.kind (Q.state queue.old) calls.now answers.old (length answers.old) }
    ensures names { Q.names queue.new ≡ Q.names queue.old }
{
    for i in 0..answers.len() {
        answers[i] = queue.answer(calls, i);
    }
}
