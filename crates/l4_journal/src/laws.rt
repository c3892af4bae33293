ghost use Rattle.std.specs.Prelude.{◌≡◌, ◌++◌, ℕ, List, Some};
ghost use Rattle.l4_ipc.specs.declared.calls.Call.{Call as ACall};
ghost use Rattle.l4_ipc.specs.declared.steps.Answer.{Answer as AnAnswer};
ghost use Rattle.l4_threads.specs.declared.Reply.{Reply as AReply};
ghost use Rattle.l4_journal.specs.Codes.{call_tag, call_fields, answer_code, reply_code, place_code, CallFits, AnswerFits, ReplyFits};
ghost use Rattle.l4_journal.specs.Reading.{call_of, answer_at, reply_at, place_at};

/// Ghost function: each value is read back from the words that were written for it, whatever words follow them.
pub fn written_words_read_back()
    ensures call { (call : ACall) → CallFits call → call_of (call_tag call) (call_fields call)
        ≡ Some call }
    ensures answer { (answer : AnAnswer) (rest : List ℕ) → AnswerFits answer
        → answer_at (answer_code answer ++ rest) ≡ Some (answer, rest) }
    ensures reply { (reply : AReply) (rest : List ℕ) → ReplyFits reply
        → reply_at (reply_code reply ++ rest) ≡ Some (reply, rest) }
    ensures place { (place : ℕ) (rest : List ℕ) → place_at (place_code place ++ rest)
        ≡ Some (place, rest) }
{}
