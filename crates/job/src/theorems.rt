// What is known of jobs, as the contracts of functions that do nothing.
ghost use Rattle.job.specs.TextExamples.{TextExamples};

// Small jobs, and the text of what comes of them.
pub fn job_examples()
    ensures { TextExamples }
{}
