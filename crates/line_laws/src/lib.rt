// The laws of lines. Each function only carries its theorem.
#![tactic(auto)]

ghost use Rattle.line_laws.specs.Stated.{AnswersAreRead, AnswersWereWritten, CallsAreRead, CallsWereWritten};

pub fn calls_are_read()
    ensures { CallsAreRead }
{}

pub fn calls_were_written()
    ensures { CallsWereWritten }
{}

pub fn answers_are_read()
    ensures { AnswersAreRead }
{}

pub fn answers_were_written()
    ensures { AnswersWereWritten }
{}
