// Sending the messages of a call.
ghost use Rattle.std.specs.Prelude.{◌≡◌, ◌+◌, ◌≤◌, length};
ghost use Rattle.tss_protocol.specs.Mail.{message_count, posted_all};
ghost use Rattle.tss_events.specs.Events.{messages_of};
ghost use Rattle.tss_mail.specs.Letters.{mail_of};
ghost use Rattle.tss_conditions.specs.Posting.{ArePostable};
ghost use Rattle.tss_pipeline.specs.Letters.{with_letters};

use tss_events::Sent;
use tss_mail::Mail;

/// Sends the messages of a call, one after the other.
pub(crate) fn post_all(mail: &mut Mail, sent: Sent)
    requires fresh { ArePostable (mail_of mail.old) (messages_of sent) }
    requires room { message_count (mail_of mail.old) + length sent ≤ mail.old.size }
    ensures exact { mail.new ≡ with_letters mail.old sent }
    ensures posted { mail_of mail.new ≡ posted_all (mail_of mail.old) (messages_of sent) }
{
    let mut sent = sent;
    while let Some(message) = sent.pop() {
        mail.post(message);
    }
    sent.end();
}
